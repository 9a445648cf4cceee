//! What follows from the definitions alone. Each law is the contract of a call that does nothing.

ghost use Rattle.acpi_terms.specs.Laws.{OneItemTree, OneDataTree, OneFieldList, OneRefusal, SpelledOrRefused, AliasIsNoData};

/// At most one item tree stands for a code, whatever its height.
pub fn one_item_tree()
    ensures { OneItemTree }
{}

/// At most one data tree is spelled by some bytes, whatever its height.
pub fn one_data_tree()
    ensures { OneDataTree }
{}

/// At most one list of field elements is spelled by some bytes.
pub fn one_field_list()
    ensures { OneFieldList }
{}

/// Of a code at most one reason at one place is true, and none of a code that spells items within the depth. Of any
/// other code one is true.
pub fn one_refusal()
    ensures one { OneRefusal }
    ensures exists { SpelledOrRefused }
{}

/// An example: a Name whose data would be an Alias is `NotData`, at the Alias.
pub fn alias_is_no_data()
    ensures { AliasIsNoData }
{}
