// DDS files with the DX10 extension: what the 148 bytes of their header are, what importing one to a sheet and exporting a sheet to one
// mean, and that the way there and back restores the bytes. Definitions and theorems, no code.

#![tactic(auto)]
