//! The lines of a product list.

ghost use Rattle.std.specs.Prelude.{◌≡◌, ◌≢◌, [], true, false, not, ◌==◌, codes, Some, None, IfSome, IfNone};
ghost use Rattle.std.specs.Str.{bytes_eq};
ghost use Rattle.std.specs.List.{list_all, list_any};
ghost use Rattle.patch_base.specs.Texts.{words};
ghost use Rattle.product_list.specs.ListText.{is_letter as is_letter_byte, is_axis as is_axis_word, form_of as form_named, name_and_number as name_and_number_of, number_alone as number_alone_of, at_end, ending_of, product_of, line_of as line_said};
ghost use Rattle.product_list.specs.inside.Lines.{said, ending_said, HasAxis};

use patch_base::{Words, decimal, is_name};

/// The forms of a product's line.
#[derive(Clone, Copy, Debug, PartialEq, Eq)]
pub(crate) enum Form {
    /// `r AXIS`, a pi/8 rotation.
    Rotation,
    /// `m AXIS NAME INDEX`, a measurement into a register's bit.
    Measurement,
    /// `h AXIS`, a measurement into the next hidden bit.
    Hidden,
    /// `i AXIS NAME VALUE`, settled by a register and a value.
    Settled,
    /// `j AXIS HIDDEN`, settled where that hidden bit is 1.
    Reset,
}

/// What stands after the axis in a product's line.
#[derive(Clone, Copy, Debug)]
pub(crate) enum Ending<'a> {
    Rotation,
    Measurement { name: &'a [u8], index: u32 },
    Hidden,
    Settled { name: &'a [u8], value: u32 },
    Reset { number: u32 },
}

/// What a line says.
#[derive(Clone, Copy, Debug)]
pub(crate) enum Line<'a> {
    /// `c NAME SIZE` declares a register.
    Register { name: &'a [u8], size: u32 },
    /// An axis as text, with what stands after it.
    Product { axis: &'a [u8], ending: Ending<'a> },
}

/// What a line says; None where it has none of the forms of this version.
pub(crate) fn line_of(text: &[u8], two: bool) -> Option<Line<'_>>
    ensures some { IfSome result (λ line. line_said two (words text.now) ≡ Some (said line)) }
    ensures none { IfNone result (line_said two (words text.now) ≡ None) }
    ensures axis { IfSome result HasAxis }
{
    let mut words = Words::of(text);
    let key = words.next_word()?;
    if is_register_key(key) {
        let (name, size) = name_and_number(&mut words)?;
        return Some(Line::Register { name, size });
    }
    let form = form_of(key, two)?;
    read_product(form, &mut words)
}

fn is_register_key(key: &[u8]) -> bool
    ensures { result ≡ bytes_eq key.now (codes "c") }
{
    key == b"c".as_slice()
}

// The form of a product's line by its first word.
#[tactic(auto, unfolding(crate::specs::ListText::form_of))]
fn form_of(key: &[u8], two: bool) -> Option<Form>
    ensures { result ≡ form_named two key.now }
{
    if key == b"r".as_slice() {
        return Some(Form::Rotation);
    }
    if key == b"m".as_slice() {
        return Some(Form::Measurement);
    }
    if two && key == b"h".as_slice() {
        return Some(Form::Hidden);
    }
    if two && key == b"i".as_slice() {
        return Some(Form::Settled);
    }
    if two && key == b"j".as_slice() {
        return Some(Form::Reset);
    }
    None
}

// The axis, and what stands after it.
fn read_product<'a>(form: Form, words: &mut Words<'a>) -> Option<Line<'a>>
    ensures some { IfSome result (λ line. product_of form words.old ≡ Some (said line)) }
    ensures none { IfNone result (product_of form words.old ≡ None) }
    ensures axis { IfSome result HasAxis }
{
    let axis = words.next_word()?;
    if !is_axis(axis) {
        return None;
    }
    let ending = read_ending(form, words)?;
    Some(Line::Product { axis, ending })
}

// What stands after the axis.
fn read_ending<'a>(form: Form, words: &mut Words<'a>) -> Option<Ending<'a>>
    ensures some { IfSome result (λ ending. ending_of form words.old ≡ Some (ending_said ending)) }
    ensures none { IfNone result (ending_of form words.old ≡ None) }
{
    match form {
        Form::Rotation => ends(words, Ending::Rotation),
        Form::Measurement => {
            let (name, index) = name_and_number(words)?;
            Some(Ending::Measurement { name, index })
        }
        Form::Hidden => ends(words, Ending::Hidden),
        Form::Settled => {
            let (name, value) = name_and_number(words)?;
            Some(Ending::Settled { name, value })
        }
        Form::Reset => {
            let number = number_alone(words)?;
            Some(Ending::Reset { number })
        }
    }
}

// No further word.
fn ends<'a>(words: &mut Words<'a>, ending: Ending<'a>) -> Option<Ending<'a>>
    ensures some { IfSome result (λ found.
        at_end words.old (ending_said ending.entry) ≡ Some (ending_said found)) }
    ensures none { IfNone result (at_end words.old (ending_said ending.entry) ≡ None) }
{
    no_more(words)?;
    Some(ending)
}

// Some where no word is left.
fn no_more(words: &mut Words) -> Option<()>
    ensures some { IfSome result (λ done. words.old ≡ []) }
    ensures none { IfNone result (words.old ≢ []) }
{
    match words.next_word() {
        Some(_) => None,
        None => Some(()),
    }
}

// A name and a number, and no further word.
#[tactic(auto, unfolding(crate::specs::ListText::name_and_number))]
fn name_and_number<'a>(words: &mut Words<'a>) -> Option<(&'a [u8], u32)>
    ensures some { IfSome result (λ p. name_and_number_of words.old ≡ Some (p.0.now, p.1)) }
    ensures none { IfNone result (name_and_number_of words.old ≡ None) }
{
    let name = words.next_word()?;
    let number = words.next_word()?;
    no_more(words)?;
    if !is_name(name) {
        return None;
    }
    let number = decimal(number)?;
    Some((name, number))
}

/// A number, and no further word.
pub(crate) fn number_alone(words: &mut Words) -> Option<u32>
    ensures some { IfSome result (λ n. number_alone_of words.old ≡ Some n) }
    ensures none { IfNone result (number_alone_of words.old ≡ None) }
{
    let word = words.next_word()?;
    no_more(words)?;
    let number = decimal(word)?;
    Some(number)
}

// A sign, and letters that aren't all I.
#[tactic(auto, unfolding(crate::specs::ListText::is_axis))]
fn is_axis(word: &[u8]) -> bool
    ensures { result ≡ is_axis_word word.now }
{
    match word {
        [] => false,
        [sign, letters @ ..] => {
            (*sign == b'+' || *sign == b'-') && are_letters(letters) && have_other(letters)
        }
    }
}

fn are_letters(bytes: &[u8]) -> bool
    ensures { result ≡ list_all is_letter_byte bytes.now }
{
    bytes.iter().all(|b| is_letter(*b))
}

// Whether a letter is other than I.
fn have_other(letters: &[u8]) -> bool
    ensures { result ≡ list_any (λ c. not (c == 73)) letters.now }
{
    letters.iter().any(|b| *b != b'I')
}

fn is_letter(b: u8) -> bool
    ensures { result ≡ is_letter_byte b }
{
    b == b'I' || b == b'X' || b == b'Y' || b == b'Z'
}
