// Bytes behind what is written, as far as there is room.

// All bytes of a piece; the place behind them.
pub fn put(out: &mut [u8], at: usize, piece: &[u8]) -> usize {
    let Some(room) = out.get_mut(at..) else {
        return at;
    };
    let n = room.len().min(piece.len());
    room[..n].copy_from_slice(&piece[..n]);
    at + n
}
