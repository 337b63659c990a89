// What is printed of a call: what it answered, and what it left.
use patterns::digest;
use std::io;

// The digest of the store, and after a refusal whether it is as it was.
pub fn print_store(rt: &impl Print, r: u32, store: &[u8], before: &[u8]) -> io::Result<()> {
    print!(rt; " store {:08x}", digest(store))?;
    if r != 0 {
        print_kept(rt, store == before)?;
    }
    Ok(())
}

// In the words of `edges_eme2`, which has nothing to do with the store.
pub fn print_kept(rt: &impl Print, kept: bool) -> io::Result<()> {
    if kept {
        print!(rt; " kept")
    } else {
        print!(rt; " CHANGED")
    }
}
