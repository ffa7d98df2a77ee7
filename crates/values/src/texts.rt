// The text of a string, handed to whoever asks something of it.
ghost use Rattle.std.specs.Fn.{FnOnceReturnsAt};
ghost use Rattle.std.specs.Prelude.{take};
ghost use Rattle.escapes.specs.Rfc7159.{text};

use escapes::Decoded;

// What f tells of the text that w spells, as far as a buffer of 256 bytes has room.
pub fn of_text<T, F: FnOnce(&[u8]) -> T>(w: &[u8], f: F) -> T
    requires { F.IsAlwaysCallable f }
    ensures { FnOnceReturnsAt F.FnOnce f (take 256 (text w.now)) result }
{
    let t = Decoded::<256>::of(w);
    f(t.text())
}
