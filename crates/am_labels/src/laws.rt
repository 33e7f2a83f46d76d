//! Laws of label sets that callers may cite.

ghost use Rattle.am_labels.specs.LabelLaws.{OrderedPairsAreEntries};

/// Pairs in byte order of names, each name once, are those that the label set made of them shows.
pub fn label_set_laws()
    ensures { OrderedPairsAreEntries }
{}
