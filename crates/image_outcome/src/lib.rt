// What `infer` writes, from the bytes of an image to the bytes of its listing: definitions and laws in specs/, and no code.
#![tactic(auto)]
