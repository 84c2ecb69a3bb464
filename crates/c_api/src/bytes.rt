// Starts as bytes: two for each, low byte first.
ghost use Rattle.std.specs.Prelude.{◌≡◌, ◌++◌, ℕ, ◌+◌, ◌*◌, ◌<◌, ◌≤◌, length, drop, slice_index};
ghost use Rattle.c_api.specs.Buffers.{encoded};

/// Writes each start to the front of the buffer, and leaves the rest of it.
pub fn write_starts(starts: &[u32], buffer: &mut [u8])
    requires room { 2 * length starts.now ≤ length buffer.old }
    requires small { (k : ℕ) → k < length starts.now → slice_index starts.now k < 65536 }
    ensures { buffer.new ≡ encoded starts.now ++ drop (2 * length starts.now) buffer.old }
{
    // By place: after a zip with chunks_exact_mut a proof knows nothing of what the buffer then holds.
    for (i, start) in starts.iter().enumerate() {
        buffer[2 * i..2 * i + 2].copy_from_slice(&(*start as u16).to_le_bytes());
    }
}
