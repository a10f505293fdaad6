// The text of a script: definitions of its expressions, statements and bytes. The writers of them are to come.
#![tactic(auto)]
