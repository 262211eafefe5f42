// Theorems only, about whole records and calls on bytes: what is broken in a record (specs/BrokenRecords.antt), records without
// contract numbers (specs/AsBefore.antt), answers read back (specs/ReadBackTheorem.antt), and document 01's section 'Load order' for two records
// (specs/Records.antt) and two calls (specs/ByteCalls.antt).
#![tactic(auto)]
