//! Tests of lists.

use super::*;
use std::test::Fail;

#[test]
fn grows_and_copies(rt: HostRuntime) -> Result<(), Fail> {
    let alloc = rt.alloc();
    let mut list = Seq::from_slice(alloc, &[1u32, 2])?;
    list.push(3)?;
    list.extend(&[4, 5])?;
    assert_eq!(rt; list.as_slice(), [1, 2, 3, 4, 5].as_slice());
    let copy = list.copy(alloc)?;
    list.truncate(2);
    assert_eq!(rt; list.as_slice(), [1, 2].as_slice());
    assert_eq!(rt; copy.len(), 5);
    assert_eq!(rt; copy.get(4), Some(&5));
    assert_eq!(rt; copy.get(5), None);
    Ok(())
}
