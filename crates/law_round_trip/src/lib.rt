// What wtp_read wrote, handed to wtp_write, gives the PDU with its reserved bits cleared: laws only.
#![tactic(auto)]
