//! Laws of the definitions.

ghost use Rattle.cqlp_type.specs.Laws.{TypesOfPreorder, TypesOfOwnPreorder, RootsAreTypes, ChildrenOfWhole, ChildrenOfOpen};
ghost use Rattle.cqlp_type.specs.Laws.{SpelledIsRead, ReadIsSpelled, SpelledIsLong, FittingIsSpelled, SpelledFits, OpenIsLast, LenIsOfOption};
ghost use Rattle.cqlp_type.specs.Laws.{DepthIsOfTypes, OpenIsDeeper, WholeAreTypes, WithinIsNoDeeper};
ghost use Rattle.cqlp_type.specs.Laws.{OneAnswerOfId, OneAnswerOfWhole, OneAnswerOfDepth, OneAnswerOfPush, OneAnswerOfAdvance};

/// The types of nodes in preorder are those that the nodes were made of.
#[tactic(auto, using(crate::proofs::Forests::types_of_preorder, crate::proofs::Forests::types_of_own_preorder))]
pub fn types_of_preorder()
    ensures behind { TypesOfPreorder }
    ensures own { TypesOfOwnPreorder }
{}

/// What spells a type is read as its items, and adds its nodes.
pub fn spelled_is_read()
    ensures { SpelledIsRead }
{}

/// What is read of an option is a type that its bytes spell, no deeper than the limit.
pub fn read_is_spelled()
    ensures { ReadIsSpelled }
{}

/// The bytes that spell a type are as many as `type_len` counts.
pub fn spelled_is_long()
    ensures { SpelledIsLong }
{}

/// A type that fits is spelled by the bytes that are written of it.
pub fn fitting_is_spelled()
    ensures { FittingIsSpelled }
{}

/// A type that bytes spell fits.
pub fn spelled_fits()
    ensures { SpelledFits }
{}

/// `type_len` is the length of the bytes that are a type's option, where there are any and they are not too many.
pub fn len_is_of_option()
    ensures { LenIsOfOption }
{}

/// Where types that are side by side begin, also where the last one is under way.
pub fn roots_are_types()
    ensures whole { RootsAreTypes }
    ensures under_way { OpenIsLast }
{}

/// Where the inner types of a type begin, also where it is under way.
pub fn children_are_inner_types()
    ensures whole { ChildrenOfWhole }
    ensures under_way { ChildrenOfOpen }
{}

/// How deep types that are side by side are nested, also where the last one is under way.
#[tactic(auto, using(crate::proofs::Depths::depth_followed, crate::proofs::Depths::open_deeper))]
pub fn depth_is_of_types()
    ensures whole { DepthIsOfTypes }
    ensures under_way { OpenIsDeeper }
{}

/// A table in which no type is under way says which types it holds, how many they are and how deep they are nested.
pub fn whole_tables_are_types()
    ensures are { WholeAreTypes }
    ensures within { WithinIsNoDeeper }
{}

/// One id meets the clause of `Kind::id`.
pub fn one_answer_of_kind_id()
    ensures { OneAnswerOfId }
{}

/// `TypeTable::whole` has one answer.
pub fn one_answer_of_whole()
    ensures { OneAnswerOfWhole }
{}

/// `TypeTable::depth` has one answer.
pub fn one_answer_of_depth()
    ensures { OneAnswerOfDepth }
{}

/// After the same bytes and items of an option, one answer of `TypeReader::push` to an input meets its clauses.
pub fn one_answer_of_type_push()
    ensures { OneAnswerOfPush }
{}

/// After the same bytes and items of an option, one answer of `TypeReader::advance` to an input meets its clauses.
pub fn one_answer_of_type_advance()
    ensures { OneAnswerOfAdvance }
{}
