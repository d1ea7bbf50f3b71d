//! Answers as bytes, at the front of what the caller lends.
ghost use Rattle.std.specs.Prelude.{◌≡◌, ◌<◌, ◌≤◌, IsTrue, false, take, length};

/// Copies bytes to the front of others, if they have room.
pub(crate) fn put(bytes: &[u8], out: &mut [u8]) -> bool
    ensures put { IsTrue result → take (length bytes.now) out.new ≡ bytes.now }
    ensures room { result ≡ false → length out.old < length bytes.now }
    ensures within { IsTrue result → length bytes.now ≤ length out.old }
    ensures unwritten { result ≡ false → out.new ≡ out.old }
{
    if bytes.len() > out.len() {
        return false;
    }
    let (front, _) = out.split_at_mut(bytes.len());
    front.copy_from_slice(bytes);
    true
}

/// Copies bytes to the front of others, if they have room, and counts them.
pub(crate) fn written(bytes: &[u8], out: &mut [u8], count: &mut usize) -> bool
    ensures put { IsTrue result → take count.new out.new ≡ bytes.now }
    ensures counted { count.new ≡ length bytes.now }
    ensures room { result ≡ false → length out.old < count.new }
    ensures within { IsTrue result → count.new ≤ length out.old }
    ensures unwritten { result ≡ false → out.new ≡ out.old }
{
    *count = bytes.len();
    put(bytes, out)
}
