// No code: the proved lines of the bench sheet (data sheet 14.1), one table and one statement.
#![tactic(auto)]
