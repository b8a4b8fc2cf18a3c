// The text of one function.

ghost use Rattle.std.specs.Prelude.{◌≡◌, ◌++◌, ◌<◌, ℕ, decimal, OnOk};
ghost use Rattle.mao_gen.specs.Functions.{head, body, tail, numbered, function_text};

use crate::shape::Shape;
use itoa::Buffer;
use std::alloc::AllocError;

fn head() -> &'static [u8]
    ensures { result.now ≡ head }
{
    b"\t.p2align\t4
\t.globl\tgK
\t.type\tgK, @function
gK:
"
}

fn body(shape: Shape) -> &'static [u8]
    ensures { result.now ≡ body shape }
{
    match shape {
        Shape::Branch => {
            b"\tsubl\t%esi, %edi
\ttestl\t%edi, %edi
\tje\t.LgK
\tmovl\t$1, %eax
\tret
.LgK:
\txorl\t%eax, %eax
\tret
"
        }
        Shape::Loads => {
            b"\tmovq\t24(%rsp), %rdx
\tmovq\t24(%rsp), %rcx
\tleaq\t(%rdx,%rcx), %rax
\tret
"
        }
        Shape::Sums => {
            b"\taddq\t$8, %rdi
\taddq\t$16, %rdi
\tmovq\t%rdi, %rax
\tnop
\tret
"
        }
        Shape::Loop => {
            b"\txorl\t%eax, %eax
.LgK:
\taddl\t%edi, %eax
\tsubl\t$1, %edi
\tjne\t.LgK
\tret
"
        }
    }
}

fn tail() -> &'static [u8]
    ensures { result.now ≡ tail }
{
    b"\t.size\tgK, .-gK
"
}

// Appends lines with a number in place of each `K`.
#[tactic(auto, unfolding(crate::specs::Functions::numbered))]
fn put_numbered(text: &mut Vec<u8>, lines: &[u8], number: &[u8]) -> Result<(), AllocError>
    ensures { (k : ℕ) → number.now ≡ decimal k → OnOk result (text.new.items ≡ text.old.items ++ numbered lines.now k) }
{
    for byte in lines {
        match byte {
            b'K' => text.extend_from_slice(number)?,
            _ => text.push(*byte)?,
        }
    }
    Ok(())
}

/// Appends function `k`, whose body has this shape.
pub(crate) fn put_function(text: &mut Vec<u8>, k: u32, shape: Shape) -> Result<(), AllocError>
    ensures { OnOk result (text.new.items ≡ text.old.items ++ function_text k shape) }
{
    let mut buffer = Buffer::new();
    let number = buffer.format(k).as_bytes();
    put_numbered(text, head(), number)?;
    put_numbered(text, body(shape), number)?;
    put_numbered(text, tail(), number)
}
