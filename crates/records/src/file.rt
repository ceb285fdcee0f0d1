// The file that a program reads.
use std::fs;
use std::io::{self, Read};
use std::rt::Files;

// The bytes of a file, no more than there is room for. One that cannot be opened is told on standard error, and there
// are none. No clause says so: what a file holds and what is printed are outside of what clauses see.
pub fn read_file(
    rt: &(impl Files + Eprint + AllocGlobal),
    name: &str,
    room: u64,
) -> io::Result<Option<Vec<u8>>> {
    let file = match fs::open(rt, name) {
        Ok(file) => file,
        Err(error) => {
            eprintln!(rt; "{name}: {error}")?;
            return Ok(None);
        }
    };
    let mut bytes = Vec::new(rt.alloc());
    file.take(room).read_to_end(&mut bytes)?;
    Ok(Some(bytes))
}
