use super::*;
use rand_core::utils::NextWord;
use rand_pcg::Lcg64Xsh32;
use std::test::Fail;

// The first words of the generator at state 42 and stream 54 (the demonstration program of PCG's C library, round 1).
const WORDS_OF_42: [u32; 5] = [0xa15c02b7, 0x7b47f409, 0xba1d3330, 0x83d2f293, 0xbfa4784b];

// Modulo 4 the first three of these words are 3, 1 and 0.
const FIRST_OF_42: &[u8] = b"\t.text
\t.p2align\t4
\t.globl\tg0
\t.type\tg0, @function
g0:
\txorl\t%eax, %eax
.Lg0:
\taddl\t%edi, %eax
\tsubl\t$1, %edi
\tjne\t.Lg0
\tret
\t.size\tg0, .-g0
\t.p2align\t4
\t.globl\tg1
\t.type\tg1, @function
g1:
\tmovq\t24(%rsp), %rdx
\tmovq\t24(%rsp), %rcx
\tleaq\t(%rdx,%rcx), %rax
\tret
\t.size\tg1, .-g1
\t.p2align\t4
\t.globl\tg2
\t.type\tg2, @function
g2:
\tsubl\t%esi, %edi
\ttestl\t%edi, %edi
\tje\t.Lg2
\tmovl\t$1, %eax
\tret
.Lg2:
\txorl\t%eax, %eax
\tret
\t.size\tg2, .-g2
";

#[test]
fn words_of_42(rt: HostRuntime) {
    let mut words = Lcg64Xsh32::new(42, 54);
    for word in WORDS_OF_42 {
        assert_eq!(rt; words.next_word(), word);
    }
}

#[test]
fn first_functions_of_42(rt: HostRuntime) -> Result<(), Fail> {
    let text = generate(rt.alloc(), 42)?;
    assert!(rt; text.as_slice().starts_with(FIRST_OF_42));
    Ok(())
}

#[test]
fn no_functions_have_no_text(rt: HostRuntime) -> Result<(), Fail> {
    assert_eq!(rt; generate(rt.alloc(), 0)?.as_slice(), b"".as_slice());
    Ok(())
}
