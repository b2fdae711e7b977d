// The library's face: an outcome is one word. Crate sandzguli_c gives each function to C.
ghost use Rattle.std.specs.Prelude.{◌≡◌};
ghost use Rattle.ast.specs.CheckPage.{check};
ghost use Rattle.ast.specs.Limits.{check_operators};
ghost use Rattle.ast.specs.Part.{label_part};
ghost use Rattle.functions.specs.Lookup.{check_table, check_table_of};
ghost use Rattle.generations.specs.Generations.{generations, generations_number};
ghost use Rattle.generations.specs.Newer.{newer_functions};
ghost use Rattle.generations.specs.Older.{older_functions};
ghost use Rattle.names.specs.Names.{kind_name, refusal_name};
ghost use Rattle.names.specs.Written.{name_written, DoesName};
ghost use Rattle.outcomes.specs.Calls.{copy, canonical_text, split_text};
ghost use Rattle.outcomes.specs.Signature.{signature};
ghost use Rattle.sandzguli.specs.Version.{version};
ghost use Rattle.sandzguli.specs.Words.{outcome_word, label_word, pattern_word, DoesWord};

use crate::part::label_span;
use crate::word::{empty_text_word, generations_word, outcome_word};
use calls::signature::signature;
use calls::{canonical, copy, split};
use generations::{check_newer, check_older, generations_of};
use names::kind::kind_name;
use names::refusal::refusal_name;
use patterns::matches_empty_text;
use table_check::check_table;
use walk::{check, check_operators};

const MAJOR: u64 = 0;

const MINOR: u64 = 5;

const PATCH: u64 = 0;

pub fn sandzguli_check(page: &[u8]) -> u64
    ensures { result ≡ outcome_word (check page.now) }
{
    outcome_word(check(page))
}

pub fn sandzguli_copy(page: &[u8], out: &mut [u8]) -> u64
    ensures { DoesWord (copy page.now out.old) result out.new }
{
    outcome_word(copy(page, out))
}

// The start and the size of the label of 19; 0 where there is none. A page above the limit is refused with 3, so the
// word fits.
pub fn sandzguli_joint_label(page: &[u8]) -> u64
    ensures { result ≡ label_word (label_part page.now (check page.now)) }
{
    if page::PAGE_LIMIT < page.len() {
        return 0;
    }
    let label = label_span(page);
    let start = label.start;
    let end = label.end;
    start as u64 * 256 + (end - start) as u64
}

pub fn sandzguli_canonical(page: &[u8], out: &mut [u8]) -> u64
    ensures { DoesWord (canonical_text page.now out.old) result out.new }
{
    outcome_word(canonical(page, out))
}

pub fn sandzguli_split(page: &[u8], out: &mut [u8]) -> u64
    ensures { DoesWord (split_text page.now out.old) result out.new }
{
    outcome_word(split(page, out))
}

// The check with the function table too.
pub fn sandzguli_check_table(page: &[u8]) -> u64
    ensures { result ≡ outcome_word (check_table page.now) }
{
    outcome_word(check_table(page))
}

// The check with the functions of Prometheus 2.55.
pub fn sandzguli_check_older(page: &[u8]) -> u64
    ensures { result ≡ outcome_word (check_table_of older_functions page.now) }
{
    outcome_word(check_older(page))
}

// The check with the functions of Prometheus 3.0.
pub fn sandzguli_check_newer(page: &[u8]) -> u64
    ensures { result ≡ outcome_word (check_table_of newer_functions page.now) }
{
    outcome_word(check_newer(page))
}

// Which of the two accept the page.
pub fn sandzguli_generations(page: &[u8]) -> u64
    ensures { result ≡ generations_number (generations page.now) }
{
    generations_word(generations_of(page))
}

// The check that follows the operators document too.
pub fn sandzguli_check_operators(page: &[u8]) -> u64
    ensures { result ≡ outcome_word (check_operators page.now) }
{
    outcome_word(check_operators(page))
}

// The signature of a function as it stands in a call behind the name.
pub fn sandzguli_signature(name: &[u8], out: &mut [u8]) -> u64
    ensures { DoesWord (signature name.now out.old) result out.new }
{
    outcome_word(signature(name, out))
}

// Whether a pattern is covered and matches empty text. No matcher holds one that is longer than a text may be.
pub fn sandzguli_pattern(pattern: &[u8]) -> u64
    ensures { result ≡ pattern_word pattern.now }
{
    if page::TEXT_LIMIT < pattern.len() {
        return 2;
    }
    empty_text_word(matches_empty_text(pattern))
}

pub fn sandzguli_version() -> u64
    ensures { result ≡ version }
{
    MAJOR * 65536 + MINOR * 256 + PATCH
}

pub fn sandzguli_kind_name(kind: u64, out: &mut [u8]) -> u64
    ensures { DoesName (name_written (kind_name kind) out.old) result out.new }
{
    kind_name(kind, out)
}

pub fn sandzguli_refusal_name(number: u64, out: &mut [u8]) -> u64
    ensures { DoesName (name_written (refusal_name number) out.old) result out.new }
{
    refusal_name(number, out)
}
