// Reading a checked dump, row by row.
ghost use Rattle.std.specs.Prelude.{◌≡◌, ◌<◌, length, get_or, Ok, slice_index, slice_index_or};
ghost use Rattle.dump.specs.Texts.{text_units};
ghost use Rattle.reads.specs.Typed.{TextFits, value_in, ValueFits, ValueThere, kind_in, KindFits, part_in, PartFits, PartThere};
ghost use Rattle.dump.specs.Heaps.{nobody, no_part, empty_numeral};
ghost use Rattle.rules.specs.Verdicts.{verdict};
ghost use Rattle.formed.specs.Formed.{Formed};
ghost use Rattle.heap_check.specs.Heaps.{model, dump_of};

use super::Checked;
use dump::text::Text;
use reads::cells::value_of;
use reads::kinds::kind_of;
use reads::object::{Kind, Part};
use reads::parts::{part_count, part_of};
use reads::value::Value;
use rules::texts::Texts;

// Each reads a row and hands it on, so that callers need not know of rows: what is read by two of them, and by a table,
// goes by the number of its row.
impl<'a> Checked<'a> {
    // The texts of a sound dump keep their rules.
    fn sound_texts(&self) -> Texts<'a>
        ensures { result.raw ≡ self.now.raw }
    {
        Texts { raw: self.raw }
    }

    // How many texts there are, and below parts, numerals and objects: with a section as a parameter the root
    // would have a count, too. A reader asks for an index in range, as a slice's index does.
    pub fn texts(&self) -> usize
        ensures { result ≡ self.now.raw.layout.texts.count }
    {
        self.raw.layout.texts.count
    }

    pub fn parts(&self) -> usize
        ensures { result ≡ self.now.raw.layout.parts.count }
    {
        self.raw.layout.parts.count
    }

    pub fn numerals(&self) -> usize
        ensures { result ≡ length (model self.now).numerals }
    {
        self.raw.layout.numerals.count
    }

    pub fn objects(&self) -> usize
        ensures { result ≡ length (model self.now).objects }
    {
        self.raw.layout.objects.count
    }

    pub fn root(&self) -> Value<'a>
        ensures is { value_in result ≡ (model self.now).root }
        ensures fits { ValueFits (dump_of self.now) result }
        ensures there { ValueThere (length (model self.now).objects) result }
    {
        value_of(&self.sound_texts(), self.raw.root())
    }

    // The bits of the double of a numeral.
    pub fn numeral_bits(&self, i: usize) -> u64
        requires { i < length (model self.now).numerals }
        ensures { result ≡ (get_or (model self.now).numerals i empty_numeral).bits }
    {
        self.raw.numeral_bits(i)
    }

    // The text of a numeral.
    pub fn numeral_digits(&self, i: usize) -> Text<'a>
        requires { i < length (model self.now).numerals }
        ensures is { text_units result ≡ (get_or (model self.now).numerals i empty_numeral).digits }
        ensures fits { TextFits (dump_of self.now) result }
    {
        self.sound_texts().text(self.raw.numeral_text(i))
    }

    // What an object has besides its parts.
    pub fn kind(&self, i: usize) -> Kind<'a>
        requires { i < length (model self.now).objects }
        ensures is { kind_in result ≡ (get_or (model self.now).objects i nobody).kind }
        ensures fits { KindFits (dump_of self.now) result }
    {
        kind_of(&self.sound_texts(), self.raw.row(i))
    }

    // How many parts an object has.
    pub fn part_count(&self, i: usize) -> usize
        requires { i < length (model self.now).objects }
        ensures { result ≡ length (get_or (model self.now).objects i nobody).parts }
    {
        part_count(self.raw.row(i))
    }

    // The part `k` of an object.
    pub fn part(&self, i: usize, k: usize) -> Part<'a>
        requires object { i < length (model self.now).objects }
        requires part { k < length (get_or (model self.now).objects i nobody).parts }
        ensures is { part_in result ≡ slice_index_or (get_or (model self.now).objects i nobody).parts k no_part }
        ensures fits { PartFits (dump_of self.now) result }
        ensures there { PartThere (length (model self.now).objects) result }
    {
        part_of(&self.sound_texts(), self.raw.row(i), k)
    }

    // A unit of a text, and below a byte of a buffer: readers of this type, as all that a heap holds is read by it.
    pub fn unit(&self, text: Text<'_>, k: usize) -> u16
        requires { k < length (text_units text) }
        ensures { result ≡ slice_index (text_units text.entry) k }
    {
        text.unit(k)
    }

    pub fn byte(&self, octets: &[u8], k: usize) -> u8
        requires { k < length octets.now }
        ensures { result ≡ slice_index octets.now k }
    {
        octets[k]
    }

    // Whatever is checked is what an accepted dump means, and well formed. A call that does nothing, for callers' proofs.
    pub fn stands(&self)
        ensures accepted { verdict (dump_of self.now) ≡ Ok (model self.now) }
        ensures formed { Formed (model self.now) }
    {}
}
