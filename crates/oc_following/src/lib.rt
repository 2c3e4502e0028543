//! Which schemas may follow another one in a store: those that the commands on classes and fields make. The function does nothing.
#![tactic(auto)]

ghost use Rattle.oc_following.specs.Steps.{DeclaredFollows, ClassRenamedFollows, FieldRenamedFollows, IndexSetFollows};

/// What a command on classes or fields makes of a schema that keeps the rules may follow it in a store.
pub fn laws_of_following()
    ensures declared { DeclaredFollows }
    ensures class_renamed { ClassRenamedFollows }
    ensures field_renamed { FieldRenamedFollows }
    ensures index_set { IndexSetFollows }
{}
