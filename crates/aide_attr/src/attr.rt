//! The table of attributes. All code that depends on this table is here.

ghost use Rattle.std.specs.Prelude.{◌≡◌, ◌<◌, ◌≤◌, IfSome, None, codes};
ghost use Rattle.aide_attr.specs.Attr.{index, row_of, name_of, detail_name_of, column_of, bit_of};
ghost use Rattle.aide_attr.specs.Attr.{slot_of, form_of, most_bytes, longest_digest, most_bits};
ghost use Rattle.aide_attr.specs.Attr.{attr_named, attr_of_column, holder_of};
ghost use Rattle.aide_attr.specs.Byte.{letter};
ghost use Rattle.aide_attr.specs.code.Row.{HasParts, IsRow};

use crate::form::Form;

/// An attribute of an entry, in the order in which sets and reports list them.
#[derive(Clone, Copy, PartialEq, Eq)]
pub enum Attr {
    /// The type of the file, from the type bits of its mode.
    Ftype,
    /// The path in a symbolic link.
    Lname,
    /// The size in bytes.
    Size,
    /// The number of blocks.
    Bcount,
    /// The permissions, the low twelve bits of the mode.
    Perm,
    /// The owner's number.
    Uid,
    /// The group's number.
    Gid,
    /// When the file was last read, in seconds since 1970-01-01 UTC.
    Atime,
    /// When the file's content last changed, in seconds since 1970-01-01 UTC.
    Mtime,
    /// When the file's inode last changed, in seconds since 1970-01-01 UTC.
    Ctime,
    /// The inode's number.
    Inode,
    /// The number of hard links.
    Linkcount,
    /// A digest of the content. So are the attributes up to `Sha3Of512`.
    Md5,
    Sha1,
    Sha256,
    Sha512,
    Rmd160,
    Tiger,
    Crc32,
    Crc32b,
    Haval,
    Gost,
    Whirlpool,
    Stribog256,
    Stribog512,
    Sha512Of256,
    Sha3Of256,
    Sha3Of512,
    /// The access control list.
    Acl,
    /// The extended attributes.
    Xattrs,
    /// The SELinux context.
    Selinux,
    /// The flags of an ext2 file system.
    E2fsattrs,
    /// The capabilities.
    Caps,
}

/// A row of the table of attributes.
#[derive(Clone, Copy)]
struct Row {
    name: &'static [u8],
    detail_name: &'static [u8],
    column: &'static [u8],
    bit: Option<u32>,
    slot: u8,
    form: Form,
}

impl Row {
    /// Makes a row from its parts.
    fn new(
        name: &'static [u8],
        detail_name: &'static [u8],
        column: &'static [u8],
        bit: Option<u32>,
        slot: u8,
        form: Form,
    ) -> Row
        ensures { HasParts name.now detail_name.now column.now bit slot form result }
    {
        Row {
            name,
            detail_name,
            column,
            bit,
            slot,
            form,
        }
    }

    /// Makes the row of a digest of at least `least` and at most `most` bytes. Its column has its name.
    fn digest(name: &'static [u8], detail_name: &'static [u8], least: u8, most: u8) -> Row
        ensures { HasParts name.now detail_name.now name.now None (letter (codes "H"))
            (Form.Digest least most) result }
    {
        Row::new(
            name,
            detail_name,
            name,
            None,
            b'H',
            Form::Digest(least, most),
        )
    }
}

impl Attr {
    /// Every attribute, in the order in which sets and reports list them.
    pub const ALL: [Attr; 33] = [
        Attr::Ftype,
        Attr::Lname,
        Attr::Size,
        Attr::Bcount,
        Attr::Perm,
        Attr::Uid,
        Attr::Gid,
        Attr::Atime,
        Attr::Mtime,
        Attr::Ctime,
        Attr::Inode,
        Attr::Linkcount,
        Attr::Md5,
        Attr::Sha1,
        Attr::Sha256,
        Attr::Sha512,
        Attr::Rmd160,
        Attr::Tiger,
        Attr::Crc32,
        Attr::Crc32b,
        Attr::Haval,
        Attr::Gost,
        Attr::Whirlpool,
        Attr::Stribog256,
        Attr::Stribog512,
        Attr::Sha512Of256,
        Attr::Sha3Of256,
        Attr::Sha3Of512,
        Attr::Acl,
        Attr::Xattrs,
        Attr::Selinux,
        Attr::E2fsattrs,
        Attr::Caps,
    ];

    /// Returns the name in configurations (aide.conf(5)).
    pub fn name(self) -> &'static [u8]
        ensures { result.now ≡ name_of self }
    {
        self.row().name
    }

    /// Returns the name in the details of a report.
    pub fn detail_name(self) -> &'static [u8]
        ensures { result.now ≡ detail_name_of self }
    {
        self.row().detail_name
    }

    /// Returns the name of the column that has the attribute's value in a database.
    pub fn column(self) -> &'static [u8]
        ensures { result.now ≡ column_of self }
    {
        self.row().column
    }

    /// Returns which bit of the column `attr` says whether an entry has the attribute, if there is
    /// such a bit. The lowest bit is bit 0.
    pub fn bit(self) -> Option<u32>
        ensures same { result ≡ bit_of self }
        ensures small { IfSome result (λ k. k < most_bits) }
    {
        self.row().bit
    }

    /// Returns the letter of the attribute's slot in a summary string.
    pub(crate) fn slot(self) -> u8
        ensures { result ≡ slot_of self }
    {
        self.row().slot
    }

    /// Returns how the column writes the value. No digest has more than 64 bytes.
    pub fn form(self) -> Form
        ensures same { result ≡ form_of self }
        ensures short { most_bytes result ≤ longest_digest }
    {
        self.row().form
    }

    /// Returns the first attribute with the same column. The type and the permissions share one.
    pub fn holder(self) -> Attr
        ensures { result ≡ holder_of self }
    {
        if self.index() == Attr::Perm.index() {
            Attr::Ftype
        } else {
            self
        }
    }

    /// Returns the first attribute of the column with this name, if there is one.
    #[tactic(auto, unfolding(crate::specs::Attr::attr_of_column))]
    pub fn of_column(name: &[u8]) -> Option<Attr>
        ensures { result ≡ attr_of_column name.now }
    {
        Attr::ALL.iter().copied().find(|a| a.row().column == name)
    }

    /// Returns the index in the order of [`Attr::ALL`], from 0.
    #[tactic(auto, unfolding(crate::specs::Attr::row_of, crate::specs::Attr::row))]
    pub fn index(self) -> u32
        ensures { result ≡ index self }
    {
        self as u32
    }

    /// Returns the attribute with this name, if there is one.
    #[tactic(auto, unfolding(crate::specs::Attr::attr_named))]
    pub(crate) fn named(name: &[u8]) -> Option<Attr>
        ensures { result ≡ attr_named name.now }
    {
        Attr::ALL.iter().copied().find(|a| a.row().name == name)
    }

    #[tactic(auto, unfolding(crate::specs::Attr::row_of, crate::specs::Attr::row))]
    fn row(self) -> Row
        ensures { IsRow self result }
    {
        match self {
            Attr::Ftype => Row::new(b"ftype", b"Type", b"perm", None, b'Y', Form::Kind),
            Attr::Lname => Row::new(b"l", b"Lname", b"lname", Some(1), b'l', Form::Link),
            Attr::Size => Row::new(b"s", b"Size", b"size", Some(5), b'Z', Form::Number),
            Attr::Bcount => Row::new(b"b", b"Bcount", b"bcount", Some(10), b'b', Form::Number),
            Attr::Perm => Row::new(b"p", b"Perm", b"perm", Some(2), b'p', Form::Mode),
            Attr::Uid => Row::new(b"u", b"UID", b"uid", Some(3), b'u', Form::Number),
            Attr::Gid => Row::new(b"g", b"GID", b"gid", Some(4), b'g', Form::Number),
            Attr::Atime => Row::new(b"a", b"Atime", b"atime", Some(6), b'a', Form::Time),
            Attr::Mtime => Row::new(b"m", b"Mtime", b"mtime", Some(8), b'm', Form::Time),
            Attr::Ctime => Row::new(b"c", b"Ctime", b"ctime", Some(7), b'c', Form::Time),
            Attr::Inode => Row::new(b"i", b"Inode", b"inode", Some(9), b'i', Form::Number),
            Attr::Linkcount => Row::new(
                b"n",
                b"Linkcount",
                b"lcount",
                Some(11),
                b'n',
                Form::Number,
            ),
            Attr::Md5 => Row::digest(b"md5", b"MD5", 16, 16),
            Attr::Sha1 => Row::digest(b"sha1", b"SHA1", 20, 20),
            Attr::Sha256 => Row::digest(b"sha256", b"SHA256", 32, 32),
            Attr::Sha512 => Row::digest(b"sha512", b"SHA512", 64, 64),
            Attr::Rmd160 => Row::digest(b"rmd160", b"RMD160", 20, 20),
            Attr::Tiger => Row::digest(b"tiger", b"TIGER", 1, 64),
            Attr::Crc32 => Row::digest(b"crc32", b"CRC32", 1, 64),
            Attr::Crc32b => Row::digest(b"crc32b", b"CRC32B", 1, 64),
            Attr::Haval => Row::digest(b"haval", b"HAVAL", 1, 64),
            Attr::Gost => Row::digest(b"gost", b"GOST", 1, 64),
            Attr::Whirlpool => Row::digest(b"whirlpool", b"WHIRLPOOL", 64, 64),
            Attr::Stribog256 => Row::digest(b"stribog256", b"STRIBOG256", 32, 32),
            Attr::Stribog512 => Row::digest(b"stribog512", b"STRIBOG512", 64, 64),
            Attr::Sha512Of256 => Row::digest(b"sha512_256", b"SHA512/256", 32, 32),
            Attr::Sha3Of256 => Row::digest(b"sha3_256", b"SHA3-256", 32, 32),
            Attr::Sha3Of512 => Row::digest(b"sha3_512", b"SHA3-512", 64, 64),
            Attr::Acl => Row::new(b"acl", b"ACL", b"acl", None, b'A', Form::Opaque),
            Attr::Xattrs => Row::new(b"xattrs", b"XAttrs", b"xattrs", None, b'X', Form::Opaque),
            Attr::Selinux => Row::new(b"selinux", b"SELinux", b"selinux", None, b'S', Form::Opaque),
            Attr::E2fsattrs => Row::new(
                b"e2fsattrs",
                b"E2FSAttrs",
                b"e2fsattrs",
                None,
                b'E',
                Form::Opaque,
            ),
            Attr::Caps => Row::new(b"caps", b"Caps", b"capabilities", None, b'C', Form::Opaque),
        }
    }
}
