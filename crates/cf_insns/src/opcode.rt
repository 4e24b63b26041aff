//! The opcodes that this crate speaks of, by their mnemonics (JVMS 6.5, 7).
//!
//! Of opcodes that differ in a number alone, as iload_0 to iload_3, the first and the last are named;
//! so are the last ones of the groups of the standard's table.

// Constants.
pub const NOP: u8 = 0;

pub const ACONST_NULL: u8 = 1;

pub const ICONST_M1: u8 = 2;

pub const ICONST_5: u8 = 8;

pub const BIPUSH: u8 = 16;

pub const SIPUSH: u8 = 17;

pub const LDC: u8 = 18;

pub const LDC_W: u8 = 19;

pub const LDC2_W: u8 = 20;

// Loads.
pub const ILOAD: u8 = 21;

pub const ALOAD: u8 = 25;

pub const ILOAD_0: u8 = 26;

pub const ILOAD_3: u8 = 29;

pub const ALOAD_0: u8 = 42;

pub const ALOAD_3: u8 = 45;

pub const IALOAD: u8 = 46;

pub const SALOAD: u8 = 53;

// Stores.
pub const ISTORE: u8 = 54;

pub const ASTORE: u8 = 58;

pub const ISTORE_0: u8 = 59;

pub const ISTORE_3: u8 = 62;

pub const ASTORE_0: u8 = 75;

pub const ASTORE_3: u8 = 78;

pub const IASTORE: u8 = 79;

pub const SASTORE: u8 = 86;

// Stack.
pub const POP: u8 = 87;

pub const POP2: u8 = 88;

pub const DUP: u8 = 89;

pub const DUP_X1: u8 = 90;

pub const DUP_X2: u8 = 91;

pub const DUP2: u8 = 92;

pub const DUP2_X1: u8 = 93;

pub const DUP2_X2: u8 = 94;

pub const SWAP: u8 = 95;

// Math.
pub const IADD: u8 = 96;

pub const ISUB: u8 = 100;

pub const IMUL: u8 = 104;

pub const IDIV: u8 = 108;

pub const IREM: u8 = 112;

pub const INEG: u8 = 116;

pub const ISHL: u8 = 120;

pub const ISHR: u8 = 122;

pub const IUSHR: u8 = 124;

pub const IAND: u8 = 126;

pub const IOR: u8 = 128;

pub const IXOR: u8 = 130;

pub const IINC: u8 = 132;

// Conversions.
pub const I2L: u8 = 133;

pub const I2B: u8 = 145;

pub const I2C: u8 = 146;

pub const I2S: u8 = 147;

// Comparisons.
pub const LCMP: u8 = 148;

pub const IFEQ: u8 = 153;

pub const IFLE: u8 = 158;

pub const IF_ICMPEQ: u8 = 159;

pub const IF_ICMPLE: u8 = 164;

pub const IF_ACMPEQ: u8 = 165;

pub const IF_ACMPNE: u8 = 166;

// Control.
pub const GOTO: u8 = 167;

pub const TABLESWITCH: u8 = 170;

pub const LOOKUPSWITCH: u8 = 171;

pub const IRETURN: u8 = 172;

pub const ARETURN: u8 = 176;

pub const RETURN: u8 = 177;

// References.
pub const GETSTATIC: u8 = 178;

pub const GETFIELD: u8 = 180;

pub const PUTFIELD: u8 = 181;

pub const INVOKEVIRTUAL: u8 = 182;

pub const INVOKESPECIAL: u8 = 183;

pub const INVOKESTATIC: u8 = 184;

pub const INVOKEINTERFACE: u8 = 185;

pub const NEW: u8 = 187;

pub const NEWARRAY: u8 = 188;

pub const ARRAYLENGTH: u8 = 190;

pub const ATHROW: u8 = 191;

pub const CHECKCAST: u8 = 192;

pub const INSTANCEOF: u8 = 193;

// Extended.
pub const WIDE: u8 = 196;

pub const IFNULL: u8 = 198;

pub const IFNONNULL: u8 = 199;

pub const GOTO_W: u8 = 200;

// The last opcode of the standard.
pub const JSR_W: u8 = 201;
