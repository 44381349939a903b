//! Laws of the values and intents of scripts, for callers' proofs.
ghost use Rattle.form_intent.specs.Laws.{IntentsAreSound, ValuesRise};

/// The values of a supply rise, and where values are stated on it they are off and those.
pub fn values_rise()
    ensures { ValuesRise }
{}

/// In the intent of a script of the form each supply has a list of values, which rise, and the conditions and the sets
/// of the domains name its supplies alone.
pub fn intents_are_sound()
    ensures { IntentsAreSound }
{}
