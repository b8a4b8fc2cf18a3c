// Text in fragments, so that it can be written with no memory.

ghost use Rattle.std.specs.Prelude.{◌≡◌, ◌+◌, ◌<◌, ◌++◌};
ghost use Rattle.arrayvec.specs.ArrayVec.{array_vec_len};
ghost use Rattle.asm_writer.specs.Fragments.{fragment_text, fragments_text};

use arrayvec::ArrayVec;

/// A part of a text: bytes, or a number in decimal.
#[derive(Clone, Copy, Debug)]
pub enum Fragment<'a> {
    Text(&'a [u8]),
    Number(i64),
    Digits(u64),
}

impl Default for Fragment<'_> {
    fn default() -> Self {
        Fragment::Text(b"")
    }
}

/// The fragments of a line. An instruction has at most 44.
pub type Fragments<'a> = ArrayVec<Fragment<'a>, 48>;

/// Appends a fragment.
pub(crate) fn put<'a>(out: &mut Fragments<'a>, fragment: Fragment<'a>)
    requires { array_vec_len out.old < 48 }
    ensures text { fragments_text out.new.items ≡ fragments_text out.old.items ++ fragment_text fragment.entry }
    ensures len { array_vec_len out.new ≡ array_vec_len out.old + 1 }
{
    out.push(fragment);
}
