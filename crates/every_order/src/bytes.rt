// Numbers in the bytes of a board file, low byte first. Past the end all is 0, and nothing is put there.

// So many bytes from a place on.
fn bytes<const N: usize>(s: &[u8], at: usize) -> [u8; N] {
    let mut bytes = [0; N];
    for (byte, read) in bytes.iter_mut().zip(s.get(at..).unwrap_or(&[])) {
        *byte = *read;
    }
    bytes
}

// The number in two bytes at a place.
pub(crate) fn two(s: &[u8], at: usize) -> u16 {
    u16::from_le_bytes(bytes(s, at))
}

// The number in four bytes at a place.
pub(crate) fn four(s: &[u8], at: usize) -> u32 {
    u32::from_le_bytes(bytes(s, at))
}

// Put bytes from a place on.
pub(crate) fn put(s: &mut [u8], at: usize, bytes: &[u8]) {
    if let Some(rest) = s.get_mut(at..) {
        for (byte, new) in rest.iter_mut().zip(bytes) {
            *byte = *new;
        }
    }
}

// Put numbers of two bytes from a place on.
pub(crate) fn put_twos(s: &mut [u8], at: usize, numbers: &[u16]) {
    if let Some(rest) = s.get_mut(at..) {
        let bytes = numbers.iter().flat_map(|number| number.to_le_bytes());
        for (byte, new) in rest.iter_mut().zip(bytes) {
            *byte = new;
        }
    }
}

// Put a number of four bytes at a place.
pub(crate) fn put_four(s: &mut [u8], at: usize, number: u32) {
    put(s, at, &number.to_le_bytes());
}
