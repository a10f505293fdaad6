// The walk over the sections: counts and lengths.
ghost use Rattle.std.specs.Prelude.{◌≡◌, ℕ, ◌+◌, ◌*◌, ◌<◌, ◌≤◌, length, IfOk};
ghost use Rattle.dump.specs.Layouts.{section_at, Within, layout_of, Laid};
ghost use Rattle.dump.specs.Refusals.{site_number};

use super::bytes::word;
use super::layout::{Layout, Section};
use super::refusal::{Refusal, Rule, Site};

// How many records a section has at least and at most, and how many bytes each.
#[derive(Clone, Copy)]
struct Bounds {
    site: Site,
    least: usize,
    most: usize,
    size: usize,
    ghost few: { most ≤ 1048576 },
    ghost small: { size ≤ 24 },
}

const TEXTS: Bounds = Bounds {
    site: Site::Texts,
    least: 0,
    most: 8_192,
    size: 8,
};

const UNITS: Bounds = Bounds {
    site: Site::Units,
    least: 0,
    most: 1_048_576,
    size: 2,
};

const NUMERALS: Bounds = Bounds {
    site: Site::Numerals,
    least: 0,
    most: 4_096,
    size: 12,
};

const OCTETS: Bounds = Bounds {
    site: Site::Octets,
    least: 0,
    most: 1_048_576,
    size: 1,
};

const OBJECTS: Bounds = Bounds {
    site: Site::Objects,
    least: 0,
    most: 4_096,
    size: 24,
};

const PARTS: Bounds = Bounds {
    site: Site::Parts,
    least: 0,
    most: 65_536,
    size: 24,
};

const ROOT: Bounds = Bounds {
    site: Site::Root,
    least: 1,
    most: 1,
    size: 12,
};

// The section whose count stands at `p`.
fn section(dump: &[u8], p: usize, bounds: Bounds) -> Result<Section, Refusal>
    requires { p ≤ length dump.now }
    ensures is { result ≡ section_at dump.now (site_number bounds.site) p bounds.least bounds.most bounds.size }
    ensures within { IfOk result (Within dump.now p bounds.least bounds.most bounds.size) }
{
    if dump.len() - p < 4 {
        return Err(Refusal::at(Rule::Length, bounds.site, 0));
    }
    let count = word(dump, p) as usize;
    if bounds.most < count || count < bounds.least {
        return Err(Refusal::at(Rule::Count, bounds.site, 0));
    }
    if dump.len() - p - 4 < count * bounds.size {
        return Err(Refusal::at(Rule::Length, bounds.site, 0));
    }
    Ok(Section {
        start: p + 4,
        count,
    })
}

// The sections, one after the other, and nothing behind them.
pub fn walk(dump: &[u8]) -> Result<Layout, Refusal>
    ensures is { result ≡ layout_of dump.now }
    ensures within { IfOk result (Laid dump.now) }
{
    // Where each ends, the next begins: the sum by itself is no longer than a function for it.
    let texts = section(dump, 0, TEXTS)?;
    let units = section(dump, texts.start + texts.count * TEXTS.size, UNITS)?;
    let numerals = section(dump, units.start + units.count * UNITS.size, NUMERALS)?;
    let octets = section(
        dump,
        numerals.start + numerals.count * NUMERALS.size,
        OCTETS,
    )?;
    let objects = section(dump, octets.start + octets.count * OCTETS.size, OBJECTS)?;
    let parts = section(dump, objects.start + objects.count * OBJECTS.size, PARTS)?;
    let root = section(dump, parts.start + parts.count * PARTS.size, ROOT)?;
    if dump.len() != root.start + root.count * ROOT.size {
        return Err(Refusal::at(Rule::Length, Site::Root, 0));
    }
    Ok(Layout {
        texts,
        units,
        numerals,
        octets,
        objects,
        parts,
        root,
    })
}
