// The words of the directives, by what they are for.
ghost use Rattle.std.specs.Prelude.{◌≡◌, codes};
ghost use Rattle.att_grammar.specs.Notions.{is_among, begins_with};
ghost use Rattle.att_grammar.specs.Directives.{inert_words, table_words, export_words, set_words, section_words, align_words, byte_words, short_words, long_words, quad_words, string_words, number_words, cell_width};

use insn_ir::Width;

pub fn is_inert(name: &[u8]) -> bool
    ensures { result ≡ is_among inert_words name.now }
{
    matches!(
        name,
        b".file" | b".loc" | b".ident" | b".comm" | b".lcomm" | b".cfi_sections"
    )
}

pub fn is_cfi_table(name: &[u8]) -> bool
    ensures { result ≡ is_among table_words name.now }
{
    matches!(name, b".cfi_lsda" | b".cfi_personality")
}

pub fn is_cfi(name: &[u8]) -> bool
    ensures { result ≡ begins_with (codes ".cfi_") name.now }
{
    name.starts_with(b".cfi_")
}

pub fn is_export(name: &[u8]) -> bool
    ensures { result ≡ is_among export_words name.now }
{
    matches!(
        name,
        b".globl" | b".global" | b".local" | b".weak" | b".hidden" | b".protected" | b".internal"
    )
}

pub fn is_set(name: &[u8]) -> bool
    ensures { result ≡ is_among set_words name.now }
{
    matches!(name, b".set" | b".equ")
}

pub fn is_section(name: &[u8]) -> bool
    ensures { result ≡ is_among section_words name.now }
{
    matches!(name, b".text" | b".data" | b".bss")
}

pub fn is_align(name: &[u8]) -> bool
    ensures { result ≡ is_among align_words name.now }
{
    matches!(name, b".align" | b".balign")
}

pub fn is_string(name: &[u8]) -> bool
    ensures { result ≡ is_among string_words name.now }
{
    matches!(
        name,
        b".ascii" | b".asciz" | b".string" | b".zero" | b".skip" | b".space"
    )
}

pub fn is_number(name: &[u8]) -> bool
    ensures { result ≡ is_among number_words name.now }
{
    matches!(
        name,
        b".sleb128" | b".uleb128" | b".octa" | b".float" | b".single" | b".double"
    )
}

// The width of the cells that a word makes.
#[tactic(auto, unfolding(att_grammar::specs::Directives::cell_width))]
pub fn cell_width(name: &[u8]) -> Option<Width>
    ensures { result ≡ cell_width name.now }
{
    match name {
        b".byte" => Some(Width::B),
        b".value" | b".short" | b".word" | b".hword" | b".2byte" => Some(Width::W),
        b".long" | b".int" | b".4byte" => Some(Width::L),
        b".quad" | b".8byte" => Some(Width::Q),
        _ => None,
    }
}
