// Copying a part into a lent buffer.
ghost use Rattle.std.specs.Prelude.{◌≡◌, ◌+◌, ◌≤◌, length};
ghost use Rattle.octets.specs.Splice.{splice};

// Copies `part` into `out` from index `at` on, and answers the index behind it. A chain of puts is
// cheap to prove by the record `At` of proofs/Chain.antt.
pub fn put(out: &mut [u8], at: usize, part: &[u8]) -> usize
    requires { at + length part.now ≤ length out.old }
    ensures { (result ≡ at + length part.now) × (out.new ≡ splice out.old at part.now) }
{
    let end = at + part.len();
    out[at..end].copy_from_slice(part);
    end
}
