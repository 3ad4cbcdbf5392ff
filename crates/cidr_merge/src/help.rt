//! What the program prints about itself.

/// What `--help` prints.
pub(crate) const HELP: &str = "\
Merges lists of IP networks, and prints the shortest list with exactly the resulting addresses.

    cidr_merge union  [OPTION..] FILE..             the addresses of any of the files
    cidr_merge common [OPTION..] FILE.. -- FILE..   the addresses of both sides
    cidr_merge minus  [OPTION..] FILE.. -- FILE..   the addresses of only the first side
    cidr_merge differ [OPTION..] FILE.. -- FILE..   what only the first has (<), or the second (>)
    cidr_merge list   [OPTION..] FILE..             each address of any of the files
    cidr_merge split --prefix N [OPTION..] FILE..   the networks of union, in pieces of length N
    cidr_merge reduce [--most] N [OPTION..] FILE..  at most N networks with all of union, few others
    cidr_merge check [--strict] [OPTION..] FILE..   wrong entries; --strict: host bits, overlaps too
    cidr_merge overlaps [OPTION..] FILE..           wrong entries, and each pair that overlaps
    cidr_merge find [--from FILE] NETWORK.. -- FILE..  entries that meet one; --from: or one of FILE
    cidr_merge free --prefix N [--all] FILE.. -- FILE..  the first /N in minus; --all: each of them

    -e TEXT        take this network or range as a FILE, --json too; -4: only IPv4; -6: only IPv6
    --ranges       print FIRST - LAST of each run; --count: v4 BLOCKS ADDRESSES, v6 BLOCKS ADDRESSES
    --format FORM  print plain, range, netmask, wildcard, csv, nft, ipset, json or addresses
    --set NAME     fill NAME_ipv4 and NAME_ipv6; --table NAME: that of nft; --maxelem N: ipset limit
    --line-prefix TEXT  print TEXT before each line; --line-suffix TEXT: print TEXT after it
    --ipv4 N       reduce IPv4 to N networks; --ipv6 N: reduce IPv6 to N networks, if both are there
    --max-others N  allow each family N others, or N% of its addresses (100% as a rule), or any
    --at-least N   refuse a result of fewer networks; --allow-empty: print sets without elements
    --max-change N  refuse it if more than N addresses of a family went or came, or N% of the old
    --hosts N,N    print a network of free for each number of hosts; --usage: how much is used
    --skip-bad     report refused lines, use the others; --strict: refuse host bits (10.0.0.5/8) too
    --whole        refuse a FILE cut short; --masks: ADDRESS MASK too; --read FORM: csv, ipset, nft
    --json         use the strings of JSON that are entries; --json-field NAME: those of fields NAME
    --quiet        as first word: no progress; --help prints this text, as -h; --version the version

FILE - is standard input. A line has a network (10.0.0.0/8, ::1), a range (A - B) or nothing; # and
; begin a comment. Host bits are ignored. Results ascend, IPv4 first. Status: 0; 1 if differ, check
or overlaps found something, or find or free nothing; 2 after a refusal; 3 if it skipped lines.
";

/// What `--version` prints.
pub(crate) const VERSION: &str = "cidr_merge 0.2.0-dev (proved)\n";

/// The name of the program.
pub(crate) const PROGRAM: &str = "cidr_merge";

/// What is reported for arguments that are not a command, after what is wrong with them.
pub(crate) const USAGE: &str =
    "usage: cidr_merge union|common|minus|differ|list|split|reduce|check|overlaps|free \
     [OPTION..] FILE.. [-- FILE..], or find [--from FILE] NETWORK.. -- FILE..; try --help\n";
