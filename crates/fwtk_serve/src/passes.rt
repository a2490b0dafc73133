//! What a thread knows of the book, and of the pool.
use auth_port::{Book, Pass};
use spool_pool::PoolPass;

/// The passes of a thread: that of the book, and that of the pool.
#[derive(Drop)]
pub(crate) struct Passes<B, M> {
    pub(crate) book: B,
    pub(crate) mail: M,
}

/// Passes of a book of this keeper, and of a pool of these disks.
pub(crate) type PassesOf<K, D> = Passes<Pass<Book<K>>, PoolPass<D>>;
