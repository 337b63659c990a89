// What a line does to the store that is no call of it. What does not lie within the store is left out.
use patterns::fill;

// A pattern into the store.
pub fn write(store: &mut [u8], at: usize, length: usize, from: usize) {
    if let Some(part) = part(store, at, length) {
        fill(part, 3, from);
    }
}

// A lead and a text, of a length together: the text enciphered under the old key with the lead.
pub fn seal(old: &[u8], store: &mut [u8], at: usize, length: usize) {
    if let Some(part) = part(store, at, length)
        && let Some((lead, text)) = part.split_at_mut_checked(16)
    {
        lagunedo::lagunedo_eme2_encipher(old, lead, text);
    }
}

// The bytes of the store at a place, of a length.
fn part(store: &mut [u8], at: usize, length: usize) -> Option<&mut [u8]> {
    store.get_mut(at..)?.get_mut(..length)
}
