//! Laws of generated scripts: functions that do nothing, whose clauses are the laws.

ghost use Rattle.lat_gen.specs.Theorems.{GeneratedSpells, GeneratedFits, GeneratedEmbeds, GeneratedLimits};

/// Every generated script is in the grammar and within the limits: its canonical text spells it and
/// is no longer than a script may be. It embeds only fields that it declares.
pub fn generated_scripts()
    ensures spells { GeneratedSpells }
    ensures fits { GeneratedFits }
    ensures embeds { GeneratedEmbeds }
    ensures limits { GeneratedLimits }
{}
