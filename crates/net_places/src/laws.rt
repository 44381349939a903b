//! What holds of expressions.
ghost use Rattle.net_places.specs.Nets.{HasAllSpots, HasBitNumbers, HasLocalBits, HasSpotNumbers};
ghost use Rattle.net_places.specs.Terms.{HasAloneOfLeaves, HasMisselectedOfLeaves, HasNamesOfLeaves, HasSignalsOfLeaves};

/// The nets of a body have all its bits in order, and the bodies of instances all bits of a hierarchy: a bit has the
/// number of the first bit of its instance, and that of the first bit of its net in the body and its place more.
pub fn where_bits_stand()
    ensures local { HasLocalBits }
    ensures numbers { HasBitNumbers }
    ensures all { HasAllSpots }
    ensures spot_numbers { HasSpotNumbers }
{}

/// What an expression names and selects is what its names and constants do, from the left.
pub fn what_leaves_name()
    ensures signals { HasSignalsOfLeaves }
    ensures misselected { HasMisselectedOfLeaves }
    ensures alone { HasAloneOfLeaves }
    ensures names { HasNamesOfLeaves }
{}
