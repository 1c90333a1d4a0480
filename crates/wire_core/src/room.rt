ghost use Rattle.std.specs.Prelude.{◌≡◌, ◌+◌, ◌≤◌, ◌++◌, length};
ghost use Rattle.arrayvec.specs.ArrayVec.{array_vec_len};

use arrayvec::ArrayVec;

/// Appends octets for which there is room.
pub fn append<const N: usize>(octets: &[u8], out: &mut ArrayVec<u8, N>)
    requires { array_vec_len out.old + length octets.now ≤ N }
    ensures { out.new.items ≡ out.old.items ++ octets.now }
{
    let _fits = out.try_extend_from_slice(octets);
}

/// Puts octets, for which there is room, in place of what was there.
pub fn replace<const N: usize>(octets: &[u8], out: &mut ArrayVec<u8, N>)
    requires { length octets.now ≤ N }
    ensures { out.new.items ≡ octets.now }
{
    out.clear();
    let _fits = out.try_extend_from_slice(octets);
}

/// Makes one the copy of another. No more is copied than the octets.
pub fn fill<const N: usize>(to: &mut ArrayVec<u8, N>, from: &ArrayVec<u8, N>)
    ensures { to.new ≡ from.now }
{
    to.clear();
    let _fits = to.try_extend_from_slice(from.as_slice());
}

/// A copy.
pub fn copied<const N: usize>(octets: &ArrayVec<u8, N>) -> ArrayVec<u8, N>
    ensures { result ≡ octets.now }
{
    let mut copy = ArrayVec::new();
    fill(&mut copy, octets);
    copy
}

/// Octets for which there is room.
pub fn array_of<const N: usize>(octets: &[u8]) -> ArrayVec<u8, N>
    requires { length octets.now ≤ N }
    ensures { result.items ≡ octets.now }
{
    let mut out = ArrayVec::new();
    let _fits = out.try_extend_from_slice(octets);
    out
}
