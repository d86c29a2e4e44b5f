ghost use Rattle.std.specs.Prelude.{ℕ, List};
ghost use Rattle.policy_core.specs.Sayable.{ios_atom, ios_change, junos_atom, junos_change, rpl_atom, rpl_change};
ghost use Rattle.ios_reader.specs.Profile.{PolicyParts};
ghost use Rattle.ios_meaning.specs.Meaning.{name_of};
ghost use Rattle.ios_lower.specs.OfPolicy.{PolicySays};
ghost use Rattle.expressible_table.specs.declared.kind.Dialect.TheVariants.{Ios, Junos, Rpl};
ghost use Rattle.granted_policies.specs.Granted.{IsGranted};

/// The law of granted policies; its clauses are all that it does. Where the table grants each construct of a checked
/// route-map of a text to a language, each test and each change of it can be said in that language.
pub fn granted_policies_are_sayable()
    ensures ios { (text : List ℕ) (policy : PolicyParts) → IsGranted Ios text policy → PolicySays ios_atom ios_change policy.items (name_of policy) }
    ensures junos { (text : List ℕ) (policy : PolicyParts) → IsGranted Junos text policy → PolicySays junos_atom junos_change policy.items (name_of policy) }
    ensures rpl { (text : List ℕ) (policy : PolicyParts) → IsGranted Rpl text policy → PolicySays rpl_atom rpl_change policy.items (name_of policy) }
{}
