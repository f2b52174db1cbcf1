// Hex digits, byte pairs and numbers: definitions and laws. There is nothing that runs: hex_read reads digits, hex_write writes them.
#![tactic(auto)]
