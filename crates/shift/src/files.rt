// The plan file.
ghost use Rattle.std.specs.Prelude.{◌≤◌, length};

use crate::input::read_some;
use std::fs::File;
use std::io::Read;
use std::rt::Files;

// As far as a plan's text is read: one octet more than a plan may have.
pub const PLAN_ROOM: usize = 8193;

// Reads until the text is full, the file has ended or a read fails; answers how much was read.
fn read_full<R: Read>(file: &mut R, text: &mut [u8]) -> usize
    ensures { result ≤ length text.new }
{
    let mut done = 0;
    // Stays a while: how far each read goes is up to the file.
    while done < text.len() {
        match read_some(file, &mut text[done..]) {
            0 => break,
            got => done += got,
        }
    }
    done
}

// The file of that name, opened; one whose name is not UTF-8 can't be.
fn open_named<F: Files>(files: &F, name: &[u8]) -> Option<F::File> {
    let name = str::from_utf8(name).ok()?;
    File::open(files, name).ok()
}

// The text of the file that is named, as far as there is room for it. A file that can't be opened counts as empty; of one whose reading
// fails halfway, what was read counts.
pub fn plan_text<'a, F: Files>(files: &F, name: &[u8], room: &'a mut [u8]) -> &'a [u8]
    ensures { length result.now ≤ length room.old }
{
    match open_named(files, name) {
        None => &[],
        Some(mut file) => {
            let n = read_full(&mut file, room);
            &room[..n]
        }
    }
}
