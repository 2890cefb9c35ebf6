// What stands before a field is read: the store, the table of names and the table of forms show what the fields read so far have added.
// specs/ says how, proofs/ that each field keeps it.
#![tactic(auto)]
