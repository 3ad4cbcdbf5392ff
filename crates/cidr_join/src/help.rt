//! What the program prints about itself.

use log_programs::help::log_help;

/// What `--help` prints.
pub(crate) const HELP: &str = log_help!(
    "\
Prints the lines of logs, each with the value that a list gives its address.

    cidr_join [OPTION..] -f LIST.. [FILE..]
    cidr_join [OPTION..] --group N,M [FILE..]

    -f LIST         read networks (10.0.0.0/8, 10.0.0.1, 2001:db8::/32) and ranges (A - B) from a
                    file, one on each line, followed by a tab, a comma or blanks, and a value. At
                    the start of a line, or directly after a network, # or ; begins a comment. - is
                    standard input. Several LISTs, each after an -f, count as one
    --last-wins     a network that the lists have twice gets its last value; without this option,
                    the second one is refused
    --skip-bad      report refused lines of the lists and use the others; without this option, the
                    first refused line ends the program before any log is read
    --strict        refuse networks of the lists with host bits (10.0.0.5/8)
    --whole         refuse a list without a line feed at its end, or empty: it may have been cut off
    --ranges        a line FIRST LAST VALUE, separated by spaces, tabs or commas, as iptoasn and
                    DB-IP have it, is the range from FIRST to LAST; without this option, a line in
                    which an address of the same family follows an address is refused",
    "
    -a              the address is the first one anywhere in a line, or anywhere in the field that
                    -k, -d or -w select: 10.1.1.1:51234, [10.1.1.1], SRC=10.1.1.1, addr:10.1.1.1
                    and [2001:db8::1]:443 have one; v10.1.2.3, 1.2.3.4.5 and 12:34:56 have none",
    "
    --mapped        look up an address ::ffff:A.B.C.D of a line as A.B.C.D first, and if no network
                    has that, as it is
    --networks      also look up the networks in a line (10.1.0.0/16), by the longest network of the
                    list, or the block of --group, that has all its addresses; without this option
                    only its address is looked up
    --last          print the value after the line and a tab, not before it
    --network       print the network instead of its value, which the list may leave out; a range
                    counts as the fewest networks that make it up
    --tally         count lines: print for each value the number of lines that have it, a tab and
                    the value, the greatest number first, values with the same number in the order
                    of their bytes. Lines without a value count under a minus sign. Not with --last
    --zero          also print the values of the list that no line has, or with --network its
                    networks, with the number 0. Only with --tally
    --group N,M     use no list: print before each line the block of length N that has its address,
                    or for IPv6 that of length M: --group 24,64. Not with -f, --network,
                    --last-wins, --ranges, --skip-bad, --strict, --whole or --zero
    --bad drop      a line without an address is neither printed nor counted, and lines that are too
                    long are not reported
    --bad keep      it is printed after a minus sign (the default)
    --bad stop      it ends the program, and so does one that is too long
    --bad report    it is printed after a minus sign; for each FILE is reported how many there are,
                    and how many are too long
    --quiet         as the first word: do not show on a terminal how much was read
    --help          print this text, as does -h alone
    --version       print the version

Each line is printed after the value of the longest network of the list that has its address, and a
tab; after a minus sign and a tab if no network has it, or the line has no address. Options may
follow FILEs; every word after -- is a FILE. Options of one letter can be joined, the last with its
value: -wk1, -f=list; --bad=keep is --bad keep. A FILE is a name, or - for standard input, which is
read if no FILE is given. Lines are printed unchanged; a last line without a line feed gets one. A
line has at most 1,048,576 bytes; a longer one is not printed and counts as one without an address,
and the first in each FILE is reported. A line of a LIST has at most 1,024 bytes, and a LIST
1,073,741,824. A FILE that cannot be opened is reported, and the others are read. A FILE with lines
of which none has an address in that place is reported too.

Status: 0, or 2 after wrong usage, a refused line, one that is too long without --bad drop, a file
that cannot be opened or read, a failed write, or lack of memory.

Examples:
    cidr_join -f teams.txt access.log
    cidr_join -a -f countries.csv auth.log
    cidr_join --tally -f countries.csv access.log
    cidr_join --group 24,64 --tally access.log
    tail -f access.log | cidr_join --last --network -f networks.txt
"
);

/// What `--version` prints.
pub(crate) const VERSION: &str = "cidr_join 0.2.0-dev (proved)\n";

/// The name of the program.
pub(crate) const PROGRAM: &str = "cidr_join";

/// How the program is used: what is reported for arguments that are not a command, after what is
/// wrong with them.
pub(crate) const USAGE: &str =
    "usage: cidr_join [--after TEXT | [-a] [-k N] [-d CHAR | -w]] [--nth first|last|N] [--mapped] \
     [--networks] [--bad drop|keep|stop|report] [--last | --tally [--zero]] \
     (-f LIST.. [--network] [--last-wins] [--ranges] [--strict] [--whole] [--skip-bad] \
     | --group N,M) [FILE..]; try --help\n";
