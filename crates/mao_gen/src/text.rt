// The generated text.

ghost use Rattle.std.specs.Prelude.{◌≡◌, ◌≤◌, ◌+◌, ◌*◌, IfOk, vec_len};
ghost use Rattle.mao_gen.specs.Generated.{generated};

use crate::function::put_function;
use crate::shape::Shape;
use rand_core::utils::NextWord;
use rand_pcg::Lcg64Xsh32;
use std::alloc::{AllocError, Global};

const STREAM: u64 = 54;

/// An assembly text of `n` functions `g0`, `g1` and so on, each with one of four bodies, drawn by the generator XSH RR 64/32
/// of PCG (O'Neill 2014) at state `n` and stream 54. So a number always gives the same text.
#[tactic(auto, using(crate::proofs::Steps::first_functions, crate::proofs::Steps::no_functions, crate::proofs::Lengths::length_generated))]
pub fn generate(alloc: Global, n: u32) -> Result<Vec<u8>, AllocError>
    requires { n ≤ 2000 }
    ensures text { IfOk result (λ text. text.items ≡ generated n) }
    ensures short { IfOk result (λ text. vec_len text ≤ 256 * n + 7) }
{
    let mut text = Vec::new(alloc);
    if n == 0 {
        return Ok(text);
    }
    text.extend_from_slice(b"\t.text\n")?;
    let mut words = Lcg64Xsh32::new(u64::from(n), STREAM);
    for k in 0..n {
        put_function(&mut text, k, Shape::of_word(words.next_word()))?;
    }
    Ok(text)
}
