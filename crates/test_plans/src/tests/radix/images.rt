//! Lists and images that tests are made of.

use byteorder::{ByteOrder, LittleEndian};
use std::alloc::Global;
use std::process::Abort;

/// A word that is given: its place and its value.
pub type Given = (usize, u64);

/// So many words, of which those at the places given are as given, and the others 0.
pub fn words_with(rt: &impl Abort, alloc: Global, count: usize, given: &[Given]) -> Vec<u64> {
    let mut words = vec![in alloc; 0u64; count].expect(rt, "memory");
    for (place, word) in given {
        assert!(rt; *place < words.len());
        words[*place] = *word;
    }
    words
}

/// An image of so many bytes, of which the words at the places given, counted in words, are as given,
/// and the others 0.
pub fn image_with(rt: &impl Abort, alloc: Global, size: usize, given: &[Given]) -> Vec<u8> {
    let mut image = vec![in alloc; 0u8; size].expect(rt, "memory");
    for (place, word) in given {
        assert!(rt; *place < 1_000_000);
        let at = 8 * *place;
        assert!(rt; at + 8 <= image.len());
        let mut eight = [0u8; 8];
        LittleEndian::write_u64(&mut eight, *word);
        for k in 0..8 {
            assert!(rt; at + 8 <= image.len());
            image[at + k] = eight[k];
        }
    }
    image
}
