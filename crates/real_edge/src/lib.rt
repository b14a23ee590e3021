//! Files and the standard streams as shelves and sinks.
//!
//! They tell nothing of their bytes. Each keeps the count of faults that its trait asks for: one more at each failure of the
//! system, and at a write that took nothing of a piece that isn't empty.
#![tactic(auto)]

mod files;
mod streams;

pub use files::FileShelf;
pub use streams::{ErrSink, OutSink};

#[cfg(test)]
mod tests {
    use super::{ErrSink, FileShelf, OutSink};
    use patch_base::{Failed, Shelf, Sink};

    /// A file without an end, read on, read again and read further on; then one that isn't there, and empty pieces.
    #[test]
    fn reads_and_fails_as_the_system_does(rt: HostRuntime) {
        let mut shelf = FileShelf::new(&rt);
        let mut piece = [7u8; 4];
        assert!(rt; shelf.read_at("/dev/zero", 0, &mut piece) == Ok(4));
        assert!(rt; piece == [0; 4]);
        assert!(rt; shelf.read_at("/dev/zero", 4, &mut piece) == Ok(4));
        assert!(rt; shelf.read_at("/dev/zero", 1, &mut piece) == Ok(4));
        assert!(rt; shelf.read_at("/dev/null", 0, &mut piece) == Ok(0));
        assert!(rt; shelf.read_at("/dev/null/none", 0, &mut piece) == Err(Failed));
        assert!(rt; OutSink::new(&rt).write(b"") == Ok(0));
        assert!(rt; ErrSink::new(&rt).write(b"") == Ok(0));
    }
}
