// `runimage` of document 01: an image on standard input, what its runs print on standard output. What is read and written
// is in no contract; what is printed of an image is transcript's.
#![tactic(auto)]

use input::read_full;
use loader::IMAGE_LIMIT;
use transcript::{TEXT, run_image};

// One byte more than an image may have: so many bytes are refused 1, as are more.
const INPUT: usize = IMAGE_LIMIT + 1;

// An input that can't be read is no image. What can't be written is passed over.
fn main(rt: HostRuntime) {
    let mut image = [0u8; INPUT];
    let Ok(n) = read_full(&mut rt.stdin(), &mut image) else {
        let _ = rt.eprintln("runimage: standard input can't be read");
        return;
    };
    let mut text = [0u8; TEXT];
    let size = run_image(&image[..n], &mut text);
    let _ = rt.write_all(&text[..size]);
}
