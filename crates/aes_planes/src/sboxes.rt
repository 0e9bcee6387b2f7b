//! SubBytes and InvSubBytes (FIPS 197, 5.1.1 and 5.3.2) on the bit planes of eight or sixteen blocks, as circuits of
//! gates.
//!
//! The constant that the S-box adds is left out: the round keys carry it (`round_keys`).

ghost use Rattle.std.specs.Prelude.{◌≡◌, ◌<◌, ℕ};
ghost use Rattle.aes_planes.specs.Planes.{vector_ops, planes_of};
ghost use Rattle.aes_planes.specs.Wide.{AreWide, side};
ghost use Rattle.aes_planes.specs.Circuit.{run, outputs, sbox_gates, sbox_outputs, inverse_sbox_gates, inverse_sbox_outputs};

use crate::vectors::{Planes, WidePlanes};

// The gates of SubBytes on planes of either width.
macro_rules! sbox_circuit {
    ($planes:ident, $q:expr) => {{
        let q = $q;
        let x7 = q.b7;
        let x6 = q.b6;
        let x5 = q.b5;
        let x4 = q.b4;
        let x3 = q.b3;
        let x2 = q.b2;
        let x1 = q.b1;
        let x0 = q.b0;
        let y13 = x7 ^ x1;
        let y14 = x4 ^ x2;
        let y9 = x7 ^ x4;
        let y12 = y13 ^ y14;
        let t1 = x3 ^ y12;
        let y20 = t1 ^ x6;
        let y15 = t1 ^ x2;
        let t0 = x6 ^ x5;
        let y1 = t0 ^ x0;
        let y11 = y20 ^ y9;
        let y8 = x7 ^ x2;
        let y10 = y15 ^ t0;
        let t12 = y9 & y11;
        let y5 = y1 ^ x1;
        let y16 = t0 ^ y11;
        let y17 = y10 ^ y11;
        let y7 = x0 ^ y11;
        let y4 = y1 ^ x4;
        let y3 = y5 ^ y8;
        let t2 = y12 & y15;
        let t15 = y8 & y10;
        let t13 = y14 & y17;
        let t5 = y4 & x0;
        let t7 = y13 & y16;
        let y2 = y1 ^ x7;
        let y6 = y15 ^ x0;
        let y21 = y13 ^ y16;
        let t3 = y3 & y6;
        let t10 = y2 & y7;
        let t16 = t15 ^ t12;
        let t14 = t13 ^ t12;
        let t8 = y5 & y1;
        let y19 = y10 ^ y8;
        let t6 = t5 ^ t2;
        let t18 = t6 ^ t16;
        let t4 = t3 ^ t2;
        let t9 = t8 ^ t7;
        let t19 = t9 ^ t14;
        let t11 = t10 ^ t7;
        let t23 = t19 ^ y21;
        let t17 = t4 ^ t14;
        let t20 = t11 ^ t16;
        let y18 = x7 ^ y16;
        let t22 = t18 ^ y19;
        let t21 = t17 ^ y20;
        let t24 = t20 ^ y18;
        let t30 = t23 ^ t24;
        let t26 = t21 & t23;
        let t31 = t22 ^ t26;
        let t25 = t21 ^ t22;
        let t32 = t31 & t30;
        let t33 = t32 ^ t24;
        let t27 = t24 ^ t26;
        let t35 = t27 ^ t33;
        let t28 = t25 & t27;
        let t29 = t28 ^ t22;
        let t42 = t29 ^ t33;
        let t34 = t23 ^ t33;
        let t36 = t24 & t35;
        let t38 = t27 ^ t36;
        let t39 = t29 & t38;
        let z2 = t33 & x0;
        let z5 = t29 & y7;
        let t37 = t36 ^ t34;
        let t40 = t25 ^ t39;
        let t44 = t33 ^ t37;
        let z11 = t33 & y4;
        let t51 = z2 ^ z5;
        let t41 = t40 ^ t37;
        let z4 = t40 & y1;
        let t43 = t29 ^ t40;
        let z6 = t42 & y11;
        let z1 = t37 & y6;
        let z13 = t40 & y5;
        let z3 = t43 & y16;
        let z17 = t41 & y8;
        let z10 = t37 & y3;
        let z14 = t29 & y2;
        let t47 = z10 ^ z11;
        let t45 = t42 ^ t41;
        let z15 = t42 & y9;
        let z0 = t44 & y15;
        let z7 = t45 & y17;
        let t54 = z6 ^ z7;
        let t53 = z0 ^ z3;
        let t59 = z3 ^ t54;
        let z12 = t43 & y13;
        let t48 = z5 ^ z13;
        let z16 = t45 & y14;
        let t50 = z2 ^ z12;
        let z8 = t41 & y10;
        let t46 = z15 ^ z16;
        let t52 = z7 ^ z8;
        let t57 = t50 ^ t53;
        let t64 = z4 ^ t59;
        let t58 = z4 ^ t46;
        let t62 = t52 ^ t58;
        let z9 = t44 & y12;
        let t61 = z14 ^ t57;
        let t56 = z12 ^ t48;
        let t49 = z9 ^ z10;
        let s6 = t56 ^ t62;
        let t65 = t61 ^ t62;
        let t67 = t64 ^ t65;
        let t63 = t49 ^ t58;
        let t66 = z1 ^ t63;
        let s4 = t51 ^ t66;
        let s3 = t53 ^ t66;
        let t55 = z16 ^ z17;
        let s2 = t55 ^ t67;
        let s5 = t47 ^ t65;
        let t60 = t46 ^ t57;
        let s0 = t59 ^ t63;
        let s7 = t48 ^ t60;
        let s1 = t64 ^ s3;
        $planes {
            b7: s0,
            b6: s1,
            b5: s2,
            b4: s3,
            b3: s4,
            b2: s5,
            b1: s6,
            b0: s7,
        }
    }};
}

// The gates of InvSubBytes on planes of either width.
macro_rules! inverse_sbox_circuit {
    ($planes:ident, $q:expr) => {{
        let q = $q;
        let x7 = q.b7;
        let x6 = q.b6;
        let x5 = q.b5;
        let x4 = q.b4;
        let x3 = q.b3;
        let x2 = q.b2;
        let x1 = q.b1;
        let x0 = q.b0;
        let g1 = x4 ^ x7;
        let g0 = x3 ^ x4;
        let g3 = x6 ^ g1;
        let g4 = x7 ^ g3;
        let g5 = x1 ^ g4;
        let g2 = x2 ^ x7;
        let g7 = g2 ^ x5;
        let g6 = x0 ^ g5;
        let g8 = g0 ^ g6;
        let g23 = g3 ^ g7;
        let g27 = g8 ^ g4;
        let g14 = g1 ^ g6;
        let g10 = g5 ^ g8;
        let g9 = x5 ^ g6;
        let g15 = g9 ^ g7;
        let g40 = g8 | g9;
        let g11 = g8 ^ g6;
        let g24 = g14 & g23;
        let g28 = g10 ^ g9;
        let g17 = g11 | g15;
        let g12 = g4 ^ g1;
        let g13 = g10 ^ g3;
        let g38 = g6 & g7;
        let g20 = g15 ^ g13;
        let g18 = g11 ^ g12;
        let g16 = g12 | g13;
        let g37 = g1 & g3;
        let g21 = g12 & g13;
        let g26 = g16 ^ g24;
        let g30 = g27 | g28;
        let g25 = g17 ^ g24;
        let g29 = g27 & g28;
        let g63 = g9 ^ g10;
        let g22 = g18 & g20;
        let g34 = g30 ^ g22;
        let g31 = g21 ^ g29;
        let g19 = g11 & g15;
        let g33 = g26 ^ g19;
        let g39 = g4 & g10;
        let g77 = g7 ^ g3;
        let g35 = g31 ^ g19;
        let g32 = g25 ^ g22;
        let g44 = g35 ^ g40;
        let g36 = g34 ^ g19;
        let g43 = g36 ^ g39;
        let g41 = g32 ^ g37;
        let g45 = g41 & g43;
        let g50 = g43 ^ g44;
        let g69 = g10 ^ g3;
        let g42 = g33 ^ g38;
        let g97 = g6 ^ g1;
        let g68 = g9 ^ g7;
        let g51 = g45 ^ g42;
        let g47 = g44 ^ g45;
        let g52 = g50 & g51;
        let g53 = g52 ^ g44;
        let g79 = g3 & g53;
        let g55 = g43 ^ g53;
        let g54 = g47 ^ g53;
        let g56 = g54 & g44;
        let g46 = g41 ^ g42;
        let g48 = g46 & g47;
        let g49 = g48 ^ g42;
        let g57 = g47 ^ g56;
        let g64 = g10 & g49;
        let g90 = g8 ^ g6;
        let g76 = g68 ^ g69;
        let g59 = g57 & g49;
        let g58 = g55 ^ g56;
        let g60 = g59 ^ g46;
        let g70 = g49 ^ g53;
        let g101 = g97 & g58;
        let g61 = g49 ^ g60;
        let g71 = g60 ^ g58;
        let g80 = g76 & g71;
        let g78 = g69 & g70;
        let g107 = g71 ^ g58;
        let g92 = g70 ^ g71;
        let g91 = g4 ^ g1;
        let g110 = g8 ^ g4;
        let g112 = g110 & g107;
        let g73 = g53 ^ g58;
        let g72 = g70 ^ g71;
        let g99 = g1 & g53;
        let g103 = g101 ^ g99;
        let g74 = g72 & g68;
        let g93 = g53 ^ g58;
        let g65 = g63 & g60;
        let g95 = g93 & g6;
        let g81 = g77 & g58;
        let g106 = g70 ^ g53;
        let g66 = g65 ^ g64;
        let g96 = g90 ^ g91;
        let g105 = g99 ^ g95;
        let g62 = g61 & g9;
        let g67 = g64 ^ g62;
        let g108 = g106 ^ g107;
        let g100 = g96 & g71;
        let g111 = g4 & g106;
        let g94 = g92 & g90;
        let g98 = g91 & g70;
        let g83 = g81 ^ g79;
        let g109 = g108 & g8;
        let g82 = g78 ^ g80;
        let g75 = g73 & g7;
        let g85 = g79 ^ g75;
        let g102 = g98 ^ g100;
        let g84 = g80 ^ g74;
        let g86 = g66 ^ g84;
        let g89 = g85 ^ g82;
        let g120 = g89 ^ g86;
        let g114 = g111 ^ g109;
        let g113 = g112 ^ g111;
        let g104 = g100 ^ g94;
        let g115 = g113 ^ g104;
        let g118 = g105 ^ g102;
        let g87 = g83 ^ g84;
        let g127 = g115 ^ g120;
        let g88 = g67 ^ g82;
        let g117 = g114 ^ g102;
        let g122 = g87 ^ g117;
        let g119 = g88 ^ g117;
        let g121 = g118 ^ g119;
        let g123 = g86 ^ g117;
        let g124 = g121 ^ g122;
        let g128 = g120 ^ g119;
        let g116 = g103 ^ g104;
        let g125 = g117 ^ g116;
        let g126 = g124 ^ g123;
        let g130 = g126 ^ g116;
        let g129 = g127 ^ g126;
        let g131 = g125 ^ g129;
        $planes {
            b7: g123,
            b6: g129,
            b5: g131,
            b4: g122,
            b3: g130,
            b2: g128,
            b1: g119,
            b0: g116,
        }
    }};
}

/// SubBytes of eight blocks, without the constant of the S-box.
#[inline(always)]
pub fn sub_bytes(q: Planes) -> Planes
    ensures { planes_of result ≡ outputs vector_ops sbox_outputs (run vector_ops sbox_gates (planes_of q)) }
{
    sbox_circuit!(Planes, q)
}

/// SubBytes of sixteen blocks, without the constant of the S-box.
#[inline(always)]
pub fn wide_sub_bytes(q: WidePlanes) -> WidePlanes
    requires { AreWide q }
    ensures sides { (i : ℕ) → i < 2 → planes_of (side i result) ≡ outputs vector_ops sbox_outputs (run vector_ops sbox_gates (planes_of (side i q))) }
    ensures wide { AreWide result }
{
    sbox_circuit!(WidePlanes, q)
}

/// InvSubBytes of eight blocks whose bytes have the constant of the S-box added.
#[inline(always)]
pub fn inverse_sub_bytes(q: Planes) -> Planes
    ensures { planes_of result ≡ outputs vector_ops inverse_sbox_outputs (run vector_ops inverse_sbox_gates (planes_of q)) }
{
    inverse_sbox_circuit!(Planes, q)
}

/// InvSubBytes of sixteen blocks whose bytes have the constant of the S-box added.
#[inline(always)]
pub fn wide_inverse_sub_bytes(q: WidePlanes) -> WidePlanes
    requires { AreWide q }
    ensures sides { (i : ℕ) → i < 2 → planes_of (side i result) ≡ outputs vector_ops inverse_sbox_outputs (run vector_ops inverse_sbox_gates (planes_of (side i q))) }
    ensures wide { AreWide result }
{
    inverse_sbox_circuit!(WidePlanes, q)
}
