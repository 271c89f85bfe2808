// Bytes into a part of lent memory.
ghost use Rattle.std.specs.Prelude.{◌≡◌, ◌+◌, ◌≤◌, length};
ghost use Rattle.records.specs.Copies.{put_at};

// Copies src into dst, from index at on.
pub fn copy_in(dst: &mut [u8], at: usize, src: &[u8])
    requires { at + length src.now ≤ length dst.old }
    ensures { dst.new ≡ put_at dst.old at src.now }
{
    dst[at..at + src.len()].copy_from_slice(src);
}
