// The job image and its listing as document 01 says them: definitions in specs/, and no code.
#![tactic(auto)]
