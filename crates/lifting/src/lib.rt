// From the rule of one call to a table of calls: what an event does to any table of records, for any rule of one call.
// Proved: what each event leaves, and that two neighbouring events that do not name the same call may change places (demand 3).
// Definitions and laws only; the keeper's own table and rule are put in for the parameters.
#![tactic(auto)]
