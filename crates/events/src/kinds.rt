//! The kinds of events, one file each.

pub(crate) mod defiso;
pub(crate) mod defthm;
pub(crate) mod defthm_inst;
pub(crate) mod defun;
pub(crate) mod defun_inst;
pub(crate) mod defun_sk2;
pub(crate) mod defunvar;
pub(crate) mod in_package;
pub(crate) mod include_book;
pub(crate) mod isodata;
pub(crate) mod restrict;
pub(crate) mod value_triple;
