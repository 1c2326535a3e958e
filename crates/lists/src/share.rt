//! Shared data gets one more owner.

ghost use Rattle.std.specs.Prelude.{◌≡◌, IfOk};

use crate::memory::Memory;
use crate::seq::Seq;
use std::alloc::Global;

/// What can have one more owner.
pub trait Share {
    /// The same value, with one more owner.
    fn share(&self) -> Result<Self, Memory>
        ensures { IfOk result (λ value. value ≡ self.now) };
}

impl Share for u8 {
    fn share(&self) -> Result<u8, Memory> {
        Ok(*self)
    }
}

impl Share for u32 {
    fn share(&self) -> Result<u32, Memory> {
        Ok(*self)
    }
}

impl<T: Share + Drop> Seq<T> {
    /// An equal list, with its items shared.
    pub fn copy(&self, alloc: Global) -> Result<Seq<T>, Memory>
        ensures { IfOk result (λ copy. copy ≡ self.now) }
    {
        let mut copy = Seq::new(alloc);
        for item in self.as_slice() {
            copy.push(item.share()?)?;
        }
        Ok(copy)
    }
}
