// Laws of the schema.
ghost use Rattle.cfa_schema.specs.Laws.{RefusalIsOne, NeverBoth, NothingIsRefused, NamedBodyIsThere, EditBundleIsThere, AgentBundleIsThere, EachBundleCalls, ChainsAreShort, ListedIdsAreFound, FoundIdsAreListed, WordsLackNewlines, NamesAreWords, ParamsAreWords, LinesAreCounts, LinesAreFew, PromisesAreFew, NamedBundleStands, CommonBundlesStand, NamedBundleIsWord, CommonNamesAreWords, SequenceNamesAreWords, IdsAreCounted};

/// A policy has one first refusal, and a valid policy has none: what `check` may answer of a policy is one answer.
pub fn one_refusal()
    ensures one { RefusalIsOne }
    ensures never_both { NeverBoth }
{}

/// No attribute of a valid policy is refused, so each body and bundle that one names is there, of the type that is asked
/// for, with as many parameters as it is given.
pub fn named_blocks_are_there()
    ensures nothing_refused { NothingIsRefused }
    ensures body { NamedBodyIsThere }
    ensures edit_bundle { EditBundleIsThere }
    ensures agent_bundle { AgentBundleIsThere }
{}

/// In a valid policy each bundle makes its calls, and no chain of them is longer than the number of its bundles.
pub fn chains_are_short()
    ensures each { EachBundleCalls }
    ensures short { ChainsAreShort }
{}

/// The list of the ids of a valid policy has just the ids that are found, and each is found with its type.
pub fn ids_are_found()
    ensures found { ListedIdsAreFound }
    ensures listed { FoundIdsAreListed }
{}

/// In a policy that was read from its files the name of each bundle is a word, and so are its parameters. A word holds no
/// newline.
pub fn names_are_words()
    ensures one_line { WordsLackNewlines }
    ensures names { NamesAreWords }
    ensures params { ParamsAreWords }
{}

/// In a policy that was read from its files each promise stands on a line that is counted from 1, and neither a line nor the
/// number of a bundle's promises is past what a file of its size may have.
pub fn lines_are_counts()
    ensures counts { LinesAreCounts }
    ensures few { LinesAreFew }
    ensures promises { PromisesAreFew }
    ensures ids { IdsAreCounted }
{}

/// The bundles that are found by their names, and the common bundles, stand in the policy.
pub fn served_bundles_stand()
    ensures named { NamedBundleStands }
    ensures common { CommonBundlesStand }
{}

/// In a policy that was read from its files a bundle is found by a word alone, and the common bundles have words as their names.
/// So have those of the sequence, where the policy is valid.
pub fn served_names_are_words()
    ensures named { NamedBundleIsWord }
    ensures common { CommonNamesAreWords }
    ensures sequence { SequenceNamesAreWords }
{}
