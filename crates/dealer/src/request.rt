// What a dealer is asked for.
//   Request   the sort, the terms, and the raw words, which are lent

use crate::sort::Sort;
use protocol::Terms;

// The terms' session number is of no account, but it is one.
#[derive(Clone, Copy)]
pub struct Request<'a> {
    pub sort: Sort,
    pub terms: Terms,
    pub words: &'a [u32],
}
