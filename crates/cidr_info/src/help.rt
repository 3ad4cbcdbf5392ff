//! The texts that the program prints about itself.

/// The text that `--help` prints.
pub(crate) const HELP: &str = "\
Prints facts about IP networks: addresses, masks, sizes and names.

    cidr_info [--json | --zones] NETWORK..
    cidr_info --in OUTER NETWORK..

    --json          print one JSON object on a line for each NETWORK, with the names and values
                    of its lines; numbers are strings too, since they can exceed 2^53. Its reverse
                    is the zone of the whole octets or nibbles, its array zones has all zones
    --zones         print only the reverse zones of each NETWORK, each on a line, in ascending order
                    of their addresses. Not with --json
    --in OUTER      print nothing: the status says whether every NETWORK lies within this network.
                    Not with --json or --zones
    --quiet         as the first word: do not show on a terminal how much was read
    --help          print this text, as does -h alone
    --version       print the version

A NETWORK is 10.1.9.32/20, 10.1.9.32/255.255.240.0, 2001:db8::/32 or an address, 10.1.9.32; or -,
for standard input with one NETWORK on each line, where blank lines and lines that begin with # are
skipped. Options may follow NETWORKs; every word after -- is a NETWORK. A word that is not a network
is reported, and the others are printed.

For each NETWORK the program prints
    address         its address, with the host bits that were given
    network         the network without host bits
    mask, wildcard  its mask, and the complement of the mask
    first, last     its least and its greatest address
    hosts           the addresses that hosts can have: for IPv4, up to a prefix length of 30, all
                    but the first and the last; otherwise all
    addresses       how many addresses it has
    reverse         its reverse zones, each on a line, if they are at most eight; else the zone of
                    its whole octets, and --zones prints its zones. For an IPv4 network of 2 to 128
                    addresses it is the zone of the /24 around it
    integer         the address as a number
    hexadecimal     the same in base 16

Status: 0; with --in, 1 if a NETWORK does not lie within OUTER, or none was read; 2 after wrong
usage, a text that is not a network, standard input that cannot be read, a failed write, or lack of
memory.

Examples:
    cidr_info 10.1.9.32/20 2001:db8::1/48
    cidr_info --json - < networks.txt
    cidr_info --zones 10.1.8.0/22
    cidr_info --in 10.0.0.0/8 10.1.2.3 && echo inside
";

/// The text that `--version` prints.
pub(crate) const VERSION: &str = "cidr_info 0.2.0-dev (proved)\n";

/// The name of the program.
pub(crate) const PROGRAM: &str = "cidr_info";

/// The usage line, which is reported after what is wrong with a command line.
pub(crate) const USAGE: &str =
    "usage: cidr_info [--json | --zones | --in OUTER] NETWORK..; try --help\n";
