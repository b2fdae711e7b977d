// The archive for C and C++ (include/sandzguli.h), which `rt lib` here makes: each function of crate sandzguli's face
// under its name in C, with the same contract. A slice passes as pointer and length.
#![tactic(auto)]

ghost use Rattle.std.specs.Prelude.{◌≡◌};
ghost use Rattle.ast.specs.CheckPage.{check};
ghost use Rattle.ast.specs.Limits.{check_operators};
ghost use Rattle.ast.specs.Part.{label_part};
ghost use Rattle.functions.specs.Lookup.{check_table, check_table_of};
ghost use Rattle.generations.specs.Generations.{generations, generations_number};
ghost use Rattle.generations.specs.Newer.{newer_functions};
ghost use Rattle.generations.specs.Older.{older_functions};
ghost use Rattle.names.specs.Names.{kind_name, refusal_name};
ghost use Rattle.names.specs.Written.{name_written, DoesName};
ghost use Rattle.outcomes.specs.Calls.{copy, canonical_text, split_text};
ghost use Rattle.outcomes.specs.Signature.{signature};
ghost use Rattle.sandzguli.specs.Version.{version};
ghost use Rattle.sandzguli.specs.Words.{outcome_word, label_word, pattern_word, DoesWord};

use sandzguli::face;

#[unsafe(no_mangle)]
pub extern "C" fn sandzguli_check(page: &[u8]) -> u64
    ensures { result ≡ outcome_word (check page.now) }
{
    face::sandzguli_check(page)
}

#[unsafe(no_mangle)]
pub extern "C" fn sandzguli_copy(page: &[u8], out: &mut [u8]) -> u64
    ensures { DoesWord (copy page.now out.old) result out.new }
{
    face::sandzguli_copy(page, out)
}

// The start and the size of the label of 19; 0 where there is none. A page above the limit is refused with 3, so the
// word fits.
#[unsafe(no_mangle)]
pub extern "C" fn sandzguli_joint_label(page: &[u8]) -> u64
    ensures { result ≡ label_word (label_part page.now (check page.now)) }
{
    face::sandzguli_joint_label(page)
}

#[unsafe(no_mangle)]
pub extern "C" fn sandzguli_canonical(page: &[u8], out: &mut [u8]) -> u64
    ensures { DoesWord (canonical_text page.now out.old) result out.new }
{
    face::sandzguli_canonical(page, out)
}

#[unsafe(no_mangle)]
pub extern "C" fn sandzguli_split(page: &[u8], out: &mut [u8]) -> u64
    ensures { DoesWord (split_text page.now out.old) result out.new }
{
    face::sandzguli_split(page, out)
}

// The check with the function table too.
#[unsafe(no_mangle)]
pub extern "C" fn sandzguli_check_table(page: &[u8]) -> u64
    ensures { result ≡ outcome_word (check_table page.now) }
{
    face::sandzguli_check_table(page)
}

// The check with the functions of Prometheus 2.55.
#[unsafe(no_mangle)]
pub extern "C" fn sandzguli_check_older(page: &[u8]) -> u64
    ensures { result ≡ outcome_word (check_table_of older_functions page.now) }
{
    face::sandzguli_check_older(page)
}

// The check with the functions of Prometheus 3.0.
#[unsafe(no_mangle)]
pub extern "C" fn sandzguli_check_newer(page: &[u8]) -> u64
    ensures { result ≡ outcome_word (check_table_of newer_functions page.now) }
{
    face::sandzguli_check_newer(page)
}

// Which of the two accept the page.
#[unsafe(no_mangle)]
pub extern "C" fn sandzguli_generations(page: &[u8]) -> u64
    ensures { result ≡ generations_number (generations page.now) }
{
    face::sandzguli_generations(page)
}

// The check that follows the operators document too.
#[unsafe(no_mangle)]
pub extern "C" fn sandzguli_check_operators(page: &[u8]) -> u64
    ensures { result ≡ outcome_word (check_operators page.now) }
{
    face::sandzguli_check_operators(page)
}

// The signature of a function as it stands in a call behind the name.
#[unsafe(no_mangle)]
pub extern "C" fn sandzguli_signature(name: &[u8], out: &mut [u8]) -> u64
    ensures { DoesWord (signature name.now out.old) result out.new }
{
    face::sandzguli_signature(name, out)
}

// Whether a pattern is covered and matches empty text. No matcher holds one that is longer than a text may be.
#[unsafe(no_mangle)]
pub extern "C" fn sandzguli_pattern(pattern: &[u8]) -> u64
    ensures { result ≡ pattern_word pattern.now }
{
    face::sandzguli_pattern(pattern)
}

#[unsafe(no_mangle)]
pub extern "C" fn sandzguli_version() -> u64
    ensures { result ≡ version }
{
    face::sandzguli_version()
}

#[unsafe(no_mangle)]
pub extern "C" fn sandzguli_kind_name(kind: u64, out: &mut [u8]) -> u64
    ensures { DoesName (name_written (kind_name kind) out.old) result out.new }
{
    face::sandzguli_kind_name(kind, out)
}

#[unsafe(no_mangle)]
pub extern "C" fn sandzguli_refusal_name(number: u64, out: &mut [u8]) -> u64
    ensures { DoesName (name_written (refusal_name number) out.old) result out.new }
{
    face::sandzguli_refusal_name(number, out)
}
